//! The modification of a session that the handset asks for.
ghost use Rattle.std.specs.Prelude.{◌≡◌, Some, None};
ghost use Rattle.sm_messages.specs.declared.message.Sm.TheVariants as sm;
ghost use Rattle.ue_sm.specs.Commands.{modify};
ghost use Rattle.ue_sm.specs.Modification.{modification_rejected, modified_by};
ghost use Rattle.ue_sm.specs.Outcome.{Commands, Works};
ghost use Rattle.ue_sm.specs.Work.{cell};

use crate::inputs::LAST_PTI;
use crate::messages::ops_octets;
use crate::work::Work;
use crate::{Cell, SmStepRefusal};
use nas_base::{Memory, Octets, Psi, Pti};
use nas_qos::{ApplyRefusal, RuleOps, apply};
use nas_timers::TimerId;
use sm_messages::{PduSessionModificationRequest, Sm};
use std::alloc::Global;

// PDU SESSION MODIFICATION REQUEST with these requested QoS rules.
fn request_of(rules: Octets) -> Sm
    ensures { result ≡ sm.PduSessionModificationRequest (record { cause = None; rules = Some rules }) }
{
    Sm::PduSessionModificationRequest(PduSessionModificationRequest {
        cause: None,
        rules: Some(rules),
    })
}

impl Work {
    /// A session is to be modified.
    #[tactic(auto, unfolding(nas_base::specs::Branches::chosen))]
    pub fn modify(&mut self, alloc: Global, psi: Psi, ops: &RuleOps) -> Result<(), SmStepRefusal>
        ensures { Commands self.old self.new result (modify (cell psi self.old) psi ops.now self.old) }
    {
        let held = match self.state.cell(psi) {
            Cell::Inactive => return Err(SmStepRefusal::NoSuchSession { psi }),
            Cell::Active(held) => held,
            other => {
                return Err(SmStepRefusal::WrongState {
                    state: other.word(),
                });
            }
        };
        match apply(alloc, &held.session.rules, ops) {
            Ok(_) => {}
            Err(ApplyRefusal::Qos(fault)) => return Err(SmStepRefusal::Qos(fault)),
            Err(ApplyRefusal::Memory) => return Err(SmStepRefusal::Memory),
        }
        let Some(pti) = self.state.next_pti() else {
            return Err(SmStepRefusal::NoPti { last: LAST_PTI });
        };
        match self.modified_by(alloc, psi, pti, ops) {
            Ok(()) => Ok(()),
            Err(Memory) => Err(SmStepRefusal::Memory),
        }
    }

    // The request goes out, and its answer is awaited.
    #[tactic(auto, unfolding(crate::specs::Modification::modified_by), using(crate::proofs::CellPlaces::put_put))]
    fn modified_by(
        &mut self,
        alloc: Global,
        psi: Psi,
        pti: Pti,
        ops: &RuleOps,
    ) -> Result<(), Memory>
        requires { self.old.state.next ≡ pti }
        ensures { Works self.old self.new result (modified_by psi ops.now self.old) }
    {
        let rules = ops_octets(alloc, ops)?;
        let message = request_of(rules);
        let transaction = self.request(alloc, psi, pti, TimerId::T3581(psi), message, None)?;
        let cell = self.state.take(psi);
        self.state.put(psi, cell.awaiting_modification(transaction));
        Ok(())
    }

    /// PDU SESSION MODIFICATION REJECT.
    #[tactic(auto, unfolding(crate::specs::Modification::modification_rejected), using(crate::proofs::CellPlaces::put_put, crate::proofs::Stops::stopped_keeps))]
    pub fn modification_rejected(&mut self, psi: Psi, cause: u8) -> Result<(), Memory>
        ensures { Works self.old self.new result (modification_rejected psi cause self.old) }
    {
        self.stop_timer(psi)?;
        let cell = self.state.take(psi);
        self.state.put(psi, cell.rejected(cause));
        Ok(())
    }
}
