//! A new 5G-GUTI without a registration.
ghost use Rattle.std.specs.Prelude.{◌≡◌, OnOk};
ghost use Rattle.ue_mm.specs.ConfigurationUpdate.{configuration_updated, is_acknowledgement_requested, renamed_by};

use crate::work::Work;
use mm_messages::{ConfigurationUpdateCommand, Mm};
use nas_base::Memory;
use nas_elements::Guti;
use nas_layout::Half;

// Whether COMPLETE is asked for (TS 24.501 clause 9.11.3.18).
#[tactic(auto, unfolding(nas_base::specs::Branches::per))]
fn is_acknowledgement_requested(indication: &Option<Half>) -> bool
    ensures { result ≡ is_acknowledgement_requested indication.now }
{
    match indication {
        Some(half) => half.0 % 2 == 1,
        None => false,
    }
}

impl Work {
    /// CONFIGURATION UPDATE COMMAND.
    #[tactic(auto, unfolding(crate::specs::ConfigurationUpdate::configuration_updated, nas_base::specs::Branches::chosen))]
    pub fn configuration_updated(
        &mut self,
        command: &ConfigurationUpdateCommand,
    ) -> Result<(), Memory>
        ensures { OnOk result (self.new ≡ configuration_updated command.now self.old) }
    {
        self.rename_by(&command.guti);
        if is_acknowledgement_requested(&command.indication) {
            return self.answer(Mm::ConfigurationUpdateComplete);
        }
        Ok(())
    }

    // A 5G-GUTI is taken, if there is one.
    #[tactic(auto, unfolding(nas_base::specs::Branches::per))]
    fn rename_by(&mut self, guti: &Option<Guti>)
        ensures { self.new ≡ renamed_by guti.now self.old }
    {
        if let Some(guti) = guti {
            self.rename(guti);
        }
    }
}
