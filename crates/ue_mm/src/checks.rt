//! Octets that pass the check of a context, and what a handset notes of it.
ghost use Rattle.std.specs.Prelude.{◌≡◌, OnOk};
ghost use Rattle.ue_mm.specs.Checks.{counted, noted};

use crate::UeOut;
use crate::work::Work;
use mm_entity::counted;
use nas_base::{Count, Dir, Memory};
use nas_security::{Context, Pass};

impl Work {
    /// That a message passed is noted.
    pub fn note(&mut self, context: &Context, count: Count) -> Result<(), Memory>
        ensures { OnOk result (self.new ≡ noted context.now count self.old) }
    {
        let supi = self.common.config.supi.copy();
        self.tell(UeOut::Passed(Pass {
            supi,
            challenge: context.challenge,
            count,
        }))
    }

    /// A message passed under the current context.
    pub fn count(&mut self, context: &Context, count: Count) -> Result<(), Memory>
        ensures { OnOk result (self.new ≡ counted context.now count self.old) }
    {
        self.common.secure = true;
        self.common.current = Some(counted(*context, Dir::Down, count));
        self.note(context, count)
    }
}
