//! The release of a session that the handset asks for.
ghost use Rattle.std.specs.Prelude.{◌≡◌};
ghost use Rattle.ue_sm.specs.Commands.{release};
ghost use Rattle.ue_sm.specs.Outcome.{Commands, Works};
ghost use Rattle.ue_sm.specs.Release.{release_rejected, release_request, released_by};
ghost use Rattle.ue_sm.specs.Work.{cell};

use crate::inputs::LAST_PTI;
use crate::work::Work;
use crate::{Cell, SmStepRefusal};
use nas_base::sm_cause::REGULAR_DEACTIVATION;
use nas_base::{Memory, Psi, Pti};
use nas_timers::TimerId;
use sm_messages::{PduSessionReleaseRequest, Sm};
use std::alloc::Global;

// PDU SESSION RELEASE REQUEST.
fn release_request() -> Sm
    ensures { result ≡ release_request }
{
    Sm::PduSessionReleaseRequest(PduSessionReleaseRequest {
        cause: Some(REGULAR_DEACTIVATION),
    })
}

impl Work {
    /// A session is to be released.
    #[tactic(auto, unfolding(nas_base::specs::Branches::chosen))]
    pub fn release(&mut self, alloc: Global, psi: Psi) -> Result<(), SmStepRefusal>
        ensures { Commands self.old self.new result (release (cell psi self.old) psi self.old) }
    {
        match self.state.cell(psi) {
            Cell::Inactive => return Err(SmStepRefusal::NoSuchSession { psi }),
            Cell::Active(_) => {}
            other => {
                return Err(SmStepRefusal::WrongState {
                    state: other.word(),
                });
            }
        }
        let Some(pti) = self.state.next_pti() else {
            return Err(SmStepRefusal::NoPti { last: LAST_PTI });
        };
        match self.released_by(alloc, psi, pti) {
            Ok(()) => Ok(()),
            Err(Memory) => Err(SmStepRefusal::Memory),
        }
    }

    // The request goes out, and its answer is awaited.
    #[tactic(auto, unfolding(crate::specs::Release::released_by), using(crate::proofs::CellPlaces::put_put))]
    fn released_by(&mut self, alloc: Global, psi: Psi, pti: Pti) -> Result<(), Memory>
        requires { self.old.state.next ≡ pti }
        ensures { Works self.old self.new result (released_by psi self.old) }
    {
        let message = release_request();
        let transaction = self.request(alloc, psi, pti, TimerId::T3582(psi), message, None)?;
        let cell = self.state.take(psi);
        self.state.put(psi, cell.awaiting_release(transaction));
        Ok(())
    }

    /// PDU SESSION RELEASE REJECT.
    #[tactic(auto, unfolding(crate::specs::Release::release_rejected), using(crate::proofs::CellPlaces::put_put, crate::proofs::Stops::stopped_keeps))]
    pub fn release_rejected(&mut self, psi: Psi, cause: u8) -> Result<(), Memory>
        ensures { Works self.old self.new result (release_rejected psi cause self.old) }
    {
        self.stop_timer(psi)?;
        let cell = self.state.take(psi);
        self.state.put(psi, cell.rejected(cause));
        Ok(())
    }
}
