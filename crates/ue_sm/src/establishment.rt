//! The establishment of a session.
ghost use Rattle.std.specs.Prelude.{◌≡◌};
ghost use Rattle.ue_sm.specs.Commands.{establish};
ghost use Rattle.ue_sm.specs.Establishment.{accepted_session, accepted_with, established_by, establishment_accepted, establishment_rejected, establishment_request};
ghost use Rattle.ue_sm.specs.Outcome.{Commands, Works};
ghost use Rattle.ue_sm.specs.Work.{cell, status, ended};
ghost use Rattle.ue_sm.specs.declared.cells.Cell.TheVariants.{Inactive};

use crate::inputs::LAST_PTI;
use crate::rules::{Unruled, ruled};
use crate::work::Work;
use crate::{Cell, Held, SessionKind, SmStepRefusal};
use nas_base::{Memory, Psi, Pti};
use nas_elements::Dnn;
use nas_layout::Half;
use nas_qos::Rules;
use nas_timers::TimerId;
use sm_messages::{
    PduSessionEstablishmentAccept, PduSessionEstablishmentRequest, Session, SessionType, Sm,
};
use std::alloc::Global;

// Integrity protection maximum data rate: the full one (TS 24.501 clause 9.11.4.7).
const FULL_DATA_RATE: u8 = 0xff;

// SSC mode 1 (TS 24.501 clause 9.11.4.16).
const SSC_MODE_1: Half = Half(1);

// PDU SESSION ESTABLISHMENT REQUEST.
fn establishment_request(kind: SessionKind) -> Sm
    ensures { result ≡ establishment_request kind }
{
    Sm::PduSessionEstablishmentRequest(PduSessionEstablishmentRequest {
        maximum_rates: [FULL_DATA_RATE, FULL_DATA_RATE],
        session_type: Some(SessionType(kind.0)),
        ssc_mode: Some(SSC_MODE_1),
    })
}

// The session that an ACCEPT tells.
fn accepted_session(accept: PduSessionEstablishmentAccept, rules: Rules) -> Session
    ensures { result ≡ accepted_session accept rules }
{
    Session {
        kind: accept.session_type.0,
        address: accept.address,
        dnn: accept.dnn,
        slice: accept.slice,
        ambr: accept.ambr,
        rules,
    }
}

impl Work {
    /// A session is to be established.
    #[tactic(auto, unfolding(nas_base::specs::Branches::chosen))]
    pub fn establish(
        &mut self,
        alloc: Global,
        psi: Psi,
        kind: SessionKind,
        dnn: Dnn,
    ) -> Result<(), SmStepRefusal>
        ensures { Commands self.old self.new result (establish (cell psi self.old) psi kind dnn self.old) }
    {
        match self.state.cell(psi) {
            Cell::Inactive => {}
            _ => return Err(SmStepRefusal::SessionThere { psi }),
        }
        let Some(pti) = self.state.next_pti() else {
            return Err(SmStepRefusal::NoPti { last: LAST_PTI });
        };
        match self.established_by(alloc, psi, pti, kind, dnn) {
            Ok(()) => Ok(()),
            Err(Memory) => Err(SmStepRefusal::Memory),
        }
    }

    // The request goes out, and its answer is awaited.
    #[tactic(auto, unfolding(crate::specs::Establishment::established_by))]
    fn established_by(
        &mut self,
        alloc: Global,
        psi: Psi,
        pti: Pti,
        kind: SessionKind,
        dnn: Dnn,
    ) -> Result<(), Memory>
        requires { self.old.state.next ≡ pti }
        ensures { Works self.old self.new result (established_by psi kind dnn self.old) }
    {
        let message = establishment_request(kind);
        let transaction = self.request(alloc, psi, pti, TimerId::T3580(psi), message, Some(dnn))?;
        self.state.put(psi, Cell::ActivePending(transaction));
        Ok(())
    }

    /// PDU SESSION ESTABLISHMENT ACCEPT.
    #[tactic(auto, unfolding(crate::specs::Establishment::establishment_accepted))]
    pub fn establishment_accepted(
        &mut self,
        alloc: Global,
        psi: Psi,
        pti: u8,
        accept: PduSessionEstablishmentAccept,
    ) -> Result<(), Memory>
        ensures { Works self.old self.new result (establishment_accepted psi pti accept self.old) }
    {
        match ruled(alloc, accept.rules.as_slice(), &Rules::new(alloc)) {
            Ok(rules) => {
                let session = accepted_session(accept, rules);
                self.end(
                    psi,
                    Cell::Active(Held {
                        session,
                        answered: None,
                    }),
                )
            }
            Err(Unruled::Refused(cause)) => self.refuse_accept(alloc, psi, pti, cause),
            Err(Unruled::Memory) => Err(Memory),
        }
    }

    // There is no session, and the network is told why.
    #[tactic(auto, using(crate::proofs::Stops::stopped_keeps))]
    fn refuse_accept(&mut self, alloc: Global, psi: Psi, pti: u8, cause: u8) -> Result<(), Memory>
        ensures { Works self.old self.new result (status psi pti cause (ended psi Inactive self.old)) }
    {
        self.stop_timer(psi)?;
        self.status(alloc, psi, pti, cause)?;
        self.state.put(psi, Cell::Inactive);
        Ok(())
    }

    /// PDU SESSION ESTABLISHMENT REJECT.
    #[tactic(auto, unfolding(crate::specs::Establishment::establishment_rejected))]
    pub fn establishment_rejected(&mut self, psi: Psi) -> Result<(), Memory>
        ensures { Works self.old self.new result (establishment_rejected psi self.old) }
    {
        self.end(psi, Cell::Inactive)
    }
}
