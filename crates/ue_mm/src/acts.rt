//! What the rows say: messages to be sent, as values, and what others are told.
ghost use Rattle.std.specs.Prelude.{◌≡◌, [], ◌∷◌, ◌++◌, OnOk};

use crate::UeOut;
use mm_messages::Mm;
use nas_base::Memory;
use std::alloc::Global;
use std::marker::Model;

/// How a message is sent: plain, or under the current context by its security header type (TS 24.501 clause 9.3).
#[derive(Clone, Copy, PartialEq, Eq)]
pub enum Protection {
    Plain,
    /// Header type 1.
    IntegrityProtected,
    /// Header type 2.
    Ciphered,
    /// Header type 4: ciphered, and the first message under a new context.
    CipheredWithNewContext,
}

/// What a row says.
#[derive(Drop)]
pub enum Act {
    /// A message is to be sent; `fresh` where it is the first of its connection.
    Say {
        fresh: bool,
        protection: Protection,
        message: Mm,
    },
    /// Somebody is told something.
    Tell(UeOut),
}

/// What the rows said, in order.
#[derive(Drop)]
pub struct Acts {
    pub items: Vec<Act>,
}

impl Model for Acts {
    ghost use Rattle.std.specs.Prelude.{List};
    ghost use Rattle.ue_mm.specs.declared.acts.Act.{Act};

    ghost Value = { List Act };

    ghost view = { λ a. a.items.items };
}

impl Acts {
    /// Nothing.
    pub fn new(alloc: Global) -> Acts
        ensures { result ≡ [] }
    {
        Acts {
            items: Vec::new(alloc),
        }
    }

    /// One more at the end.
    ///
    /// # Errors
    ///
    /// `Memory`.
    pub fn push(&mut self, act: Act) -> Result<(), Memory>
        ensures { OnOk result (self.new ≡ self.old ++ act ∷ []) }
    {
        match self.items.push(act) {
            Ok(()) => Ok(()),
            Err(_) => Err(Memory),
        }
    }
}
