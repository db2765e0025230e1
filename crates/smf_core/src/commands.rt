//! The commands to modify and to release a session.
ghost use Rattle.std.specs.Prelude.{◌≡◌};
ghost use Rattle.smf_core.specs.Commands.{modified, modify, modify_in, release, release_in};
ghost use Rattle.smf_core.specs.Outcome.{Works, unrefused};
ghost use Rattle.smf_core.specs.declared.held.Phase.TheVariants.{Active};

use crate::draft::Work;
use crate::held::{Held, LastCommand, Modification, Phase};
use crate::inputs::SmfRefusal;
use crate::modification::{changes_nothing, modification};
use nas_base::{Memory, Psi, SmfWord};
use nas_elements::Ambr;
use nas_qos::{ApplyRefusal, RuleOps, apply};
use sm_messages::Session;

/// The answer of a row that isn't refused.
pub fn unrefused(done: Result<(), Memory>) -> Result<(), SmfRefusal>
    ensures { result ≡ unrefused done }
{
    match done {
        Ok(()) => Ok(()),
        Err(Memory) => Err(SmfRefusal::Memory),
    }
}

impl<'a> Work<'a> {
    /// The command to modify a session.
    #[tactic(auto, unfolding(crate::specs::Commands::modify, nas_base::specs::Branches::per))]
    pub fn modify(&mut self, psi: Psi, ops: &RuleOps, ambr: Option<Ambr>) -> Result<(), SmfRefusal>
        ensures { Works self.old self.new result (modify psi ops.now ambr self.old.work) }
    {
        let Some(held) = self.held(psi) else {
            return Err(SmfRefusal::NoSuchSession { psi });
        };
        match held.copy(self.alloc()) {
            Ok(Held { session, phase }) => self.modify_in(phase, ops, ambr, psi, session),
            Err(Memory) => Err(SmfRefusal::Memory),
        }
    }

    // The same of a session.
    fn modify_in(
        &mut self,
        phase: Phase,
        ops: &RuleOps,
        ambr: Option<Ambr>,
        psi: Psi,
        session: Session,
    ) -> Result<(), SmfRefusal>
        ensures { Works self.old self.new result (modify_in phase ops.now ambr psi session self.old.work) }
    {
        match phase {
            Phase::Active(last) => self.modify_active(ops, ambr, &last, psi, session),
            Phase::Modifying(_) => Err(SmfRefusal::WrongState {
                state: SmfWord::Modifying,
            }),
            Phase::Settling(last) => Err(SmfRefusal::Settling {
                sent: last.sendings,
            }),
            Phase::Releasing(_) => Err(SmfRefusal::WrongState {
                state: SmfWord::Releasing,
            }),
        }
    }

    // The same of a session in Active.
    fn modify_active(
        &mut self,
        ops: &RuleOps,
        ambr: Option<Ambr>,
        last: &Option<LastCommand>,
        psi: Psi,
        session: Session,
    ) -> Result<(), SmfRefusal>
        ensures { Works self.old self.new result (modify_in (Active last.now) ops.now ambr psi session self.old.work) }
    {
        let rules = match apply(self.alloc(), &session.rules, ops) {
            Ok(rules) => rules,
            Err(ApplyRefusal::Qos(fault)) => return Err(SmfRefusal::Qos(fault)),
            Err(ApplyRefusal::Memory) => return Err(SmfRefusal::Memory),
        };
        match modification(self.alloc(), psi, 0, ambr, ops, rules, &session) {
            Ok(modification) => self.modified(modification, last, psi, session),
            Err(Memory) => Err(SmfRefusal::Memory),
        }
    }

    // The same by the modification that it comes to.
    #[tactic(auto, unfolding(nas_base::specs::Branches::chosen))]
    fn modified(
        &mut self,
        modification: Modification,
        last: &Option<LastCommand>,
        psi: Psi,
        session: Session,
    ) -> Result<(), SmfRefusal>
        ensures { Works self.old self.new result (modified modification last.now psi session self.old.work) }
    {
        if changes_nothing(&modification, last, &session) {
            return Err(SmfRefusal::NoChange);
        }
        unrefused(self.modifying(modification, psi, session))
    }

    /// The command to release a session.
    #[tactic(auto, unfolding(crate::specs::Commands::release, nas_base::specs::Branches::per))]
    pub fn release(&mut self, psi: Psi) -> Result<(), SmfRefusal>
        ensures { Works self.old self.new result (release psi self.old.work) }
    {
        let Some(held) = self.held(psi) else {
            return Err(SmfRefusal::NoSuchSession { psi });
        };
        match held.copy(self.alloc()) {
            Ok(Held { session, phase }) => self.release_in(phase, psi, session),
            Err(Memory) => Err(SmfRefusal::Memory),
        }
    }

    // The same of a session.
    fn release_in(&mut self, phase: Phase, psi: Psi, session: Session) -> Result<(), SmfRefusal>
        ensures { Works self.old self.new result (release_in phase psi session self.old.work) }
    {
        let timer = phase.timer();
        match phase {
            Phase::Active(_) | Phase::Modifying(_) | Phase::Settling(_) => unrefused(self.releasing(
                psi, 0, timer, session,
            )),
            Phase::Releasing(_) => Err(SmfRefusal::WrongState {
                state: SmfWord::Releasing,
            }),
        }
    }
}
