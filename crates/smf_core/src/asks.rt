//! What the AMF asks of all sessions of a subscriber.
ghost use Rattle.std.specs.Prelude.{◌≡◌, OnOk};
ghost use Rattle.smf_core.specs.Asks.{all_released, forgotten, kept_only, kept_only_at, switched, switched_at, unsettled, unsettled_in};
ghost use Rattle.smf_core.specs.Drafts.{by};

use crate::cell::Cell;
use crate::draft::Work;
use crate::held::{Held, Phase};
use nas_base::{Memory, Psi};
use nas_elements::Status;
use sm_messages::Session;

impl<'a> Work<'a> {
    /// Another context is in use.
    #[tactic(auto, unfolding(crate::specs::Asks::switched), using(crate::proofs::Each::each_more, crate::proofs::Each::each_over))]
    pub fn switched(&mut self) -> Result<(), Memory>
        ensures { OnOk result (self.new ≡ by switched self.old) }
    {
        for n in 1..16 {
            self.switched_at(Psi(n))?;
        }
        Ok(())
    }

    // The same for one identity.
    #[tactic(auto, unfolding(crate::specs::Asks::switched_at))]
    fn switched_at(&mut self, psi: Psi) -> Result<(), Memory>
        ensures { OnOk result (self.new ≡ by (switched_at psi) self.old) }
    {
        self.forgotten(psi)?;
        self.unsettled(psi)
    }

    // The answer that was kept is forgotten.
    #[tactic(auto, unfolding(nas_base::specs::Branches::per))]
    fn forgotten(&mut self, psi: Psi) -> Result<(), Memory>
        ensures { OnOk result (self.new ≡ by (forgotten psi) self.old) }
    {
        let cell = self.cell(psi);
        if cell.answer.is_none() {
            return Ok(());
        }
        let held = cell.copied_held(self.alloc())?;
        self.put(psi, Cell { held, answer: None })
    }

    // A session in Settling is Active.
    #[tactic(auto, unfolding(nas_base::specs::Branches::per))]
    fn unsettled(&mut self, psi: Psi) -> Result<(), Memory>
        ensures { OnOk result (self.new ≡ by (unsettled psi) self.old) }
    {
        let Some(held) = self.held(psi) else {
            return Ok(());
        };
        let Held { session, phase } = held.copy(self.alloc())?;
        self.unsettled_in(phase, psi, session)
    }

    // The same of a session.
    fn unsettled_in(&mut self, phase: Phase, psi: Psi, session: Session) -> Result<(), Memory>
        ensures { OnOk result (self.new ≡ by (unsettled_in phase psi session) self.old) }
    {
        match phase {
            Phase::Settling(last) => {
                let phase = Phase::Active(Some(last));
                self.hold(psi, Held { session, phase })
            }
            Phase::Active(_) | Phase::Modifying(_) | Phase::Releasing(_) => Ok(()),
        }
    }

    /// All sessions are removed.
    #[tactic(auto, unfolding(crate::specs::Asks::all_released), using(crate::proofs::Each::each_more, crate::proofs::Each::each_over))]
    pub fn all_released(&mut self) -> Result<(), Memory>
        ensures { OnOk result (self.new ≡ by all_released self.old) }
    {
        for n in 1..16 {
            self.removed(Psi(n))?;
        }
        Ok(())
    }

    /// All sessions that aren't in this set are removed.
    #[tactic(auto, unfolding(crate::specs::Asks::kept_only), using(crate::proofs::Each::each_more, crate::proofs::Each::each_over))]
    pub fn kept_only(&mut self, status: &Status) -> Result<(), Memory>
        ensures { OnOk result (self.new ≡ by (kept_only status.now) self.old) }
    {
        for n in 1..16 {
            self.kept_only_at(status, Psi(n))?;
        }
        Ok(())
    }

    // The same for one identity.
    #[tactic(auto, unfolding(crate::specs::Asks::kept_only_at, nas_base::specs::Branches::chosen))]
    fn kept_only_at(&mut self, status: &Status, psi: Psi) -> Result<(), Memory>
        ensures { OnOk result (self.new ≡ by (kept_only_at status.now psi) self.old) }
    {
        if status.has(psi) {
            return Ok(());
        }
        self.removed(psi)
    }
}
