//! What the rows say: messages to be sent, as values, and what others are told.
ghost use Rattle.std.specs.Prelude.{◌≡◌, [], ◌∷◌, ◌++◌, OnOk};

use crate::kept_message::KeptMessage;
use nas_base::{Memory, Moment, Psi};
use nas_timers::TimerId;
use std::alloc::Global;
use std::marker::Model;

/// What a row says.
#[derive(Drop)]
pub enum Act {
    /// A message goes down to the handset.
    Down { psi: Psi, message: KeptMessage },
    /// The AMF is to run a security mode procedure.
    Fence,
    /// A timer is started.
    Start { id: TimerId, at: Moment },
    /// A timer is stopped.
    Stop(TimerId),
}

/// What the rows said, in order.
#[derive(Drop)]
pub struct Acts {
    pub items: Vec<Act>,
}

impl Model for Acts {
    ghost use Rattle.std.specs.Prelude.{List};
    ghost use Rattle.smf_core.specs.declared.acts.Act.{Act};

    ghost Value = { List Act };

    ghost view = { λ a. a.items.items };
}

impl Acts {
    /// Nothing.
    pub fn new(alloc: Global) -> Acts
        ensures { result ≡ [] }
    {
        Acts {
            items: Vec::new(alloc),
        }
    }

    /// One more at the end.
    ///
    /// # Errors
    ///
    /// `Memory`.
    pub fn push(&mut self, act: Act) -> Result<(), Memory>
        ensures { OnOk result (self.new ≡ self.old ++ act ∷ []) }
    {
        match self.items.push(act) {
            Ok(()) => Ok(()),
            Err(_) => Err(Memory),
        }
    }
}
