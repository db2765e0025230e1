//! What the rows say: messages to be sent, as values, and what others are told.
ghost use Rattle.std.specs.Prelude.{◌≡◌, [], ◌∷◌, ◌++◌, OnOk};

use crate::AmfOut;
use mm_messages::Mm;
use nas_base::{Memory, Supi};
use std::alloc::Global;
use std::marker::Model;

/// How a message is sent: plain, or under a context of a subscriber by its security header type (TS 24.501 clause 9.3).
#[derive(Drop)]
pub enum Protection {
    Plain,
    /// Header type 2, under the context in use; plain where there is none.
    Ciphered(Supi),
    /// Header type 3, under the context that the message takes into use.
    IntegrityProtectedWithNewContext(Supi),
}

/// What a row says.
#[derive(Drop)]
pub enum Act {
    /// A message is to be sent on a link.
    Say {
        link: u16,
        protection: Protection,
        message: Mm,
    },
    /// Somebody is told something.
    Tell(AmfOut),
}

/// What the rows said, in order.
#[derive(Drop)]
pub struct Acts {
    pub items: Vec<Act>,
}

impl Model for Acts {
    ghost use Rattle.std.specs.Prelude.{List};
    ghost use Rattle.amf_core.specs.declared.acts.Act.{Act};

    ghost Value = { List Act };

    ghost view = { λ a. a.items.items };
}

impl Acts {
    /// Nothing.
    pub fn new(alloc: Global) -> Acts
        ensures { result ≡ [] }
    {
        Acts {
            items: Vec::new(alloc),
        }
    }

    /// One more at the end.
    ///
    /// # Errors
    ///
    /// `Memory`.
    pub fn push(&mut self, act: Act) -> Result<(), Memory>
        ensures { OnOk result (self.new ≡ self.old ++ act ∷ []) }
    {
        match self.items.push(act) {
            Ok(()) => Ok(()),
            Err(_) => Err(Memory),
        }
    }
}
