//! Messages that were sent, and checks that were passed.
ghost use Rattle.std.specs.Prelude.{◌≡◌, [], ◌∷◌, ◌++◌, IfOk, OnOk, OnErr};

use crate::Challenge;
use nas_base::{Count, Memory, Octets, Supi};
use std::alloc::Global;
use std::marker::Model;

/// What protected a message, or what a message passed the check of: the subscriber, the challenge of its context, and the
/// count.
#[derive(Drop, PartialEq, Eq)]
pub struct Pass {
    pub supi: Supi,
    pub challenge: Challenge,
    pub count: Count,
}

/// A message that an end sent.
#[derive(Drop)]
pub struct Send {
    /// The link that it was sent on, 1 for what a handset sends.
    pub link: u16,
    /// Whether a handset sent it as the first message of a connection.
    pub fresh: bool,
    pub octets: Octets,
    /// What protected it; nothing for a plain message.
    pub pass: Option<Pass>,
}

/// Messages in the order in which they were sent.
#[derive(Drop)]
pub struct Sends {
    pub items: Vec<Send>,
}

impl Model for Sends {
    ghost use Rattle.std.specs.Prelude.{List};
    ghost use Rattle.nas_security.specs.declared.sends.Send.{Send};

    ghost Value = { List Send };

    ghost view = { λ s. s.items.items };
}

impl Pass {
    /// An equal value.
    pub fn copy(&self) -> Pass
        ensures { result ≡ self.now }
    {
        Pass {
            supi: self.supi.copy(),
            challenge: self.challenge,
            count: self.count,
        }
    }
}

impl Send {
    /// An equal message.
    ///
    /// # Errors
    ///
    /// `Memory`.
    pub fn copy(&self, alloc: Global) -> Result<Send, Memory>
        ensures { IfOk result (λ send. send ≡ self.now) }
    {
        let pass = match &self.pass {
            Some(pass) => Some(pass.copy()),
            None => None,
        };
        match Octets::copy(alloc, self.octets.as_slice()) {
            Ok(octets) => Ok(Send {
                link: self.link,
                fresh: self.fresh,
                octets,
                pass,
            }),
            Err(_) => Err(Memory),
        }
    }
}

impl Sends {
    /// No message.
    pub fn new(alloc: Global) -> Sends
        ensures { result ≡ [] }
    {
        Sends {
            items: Vec::new(alloc),
        }
    }

    /// One more message at the end.
    ///
    /// # Errors
    ///
    /// `Memory`; nothing then changes.
    pub fn push(&mut self, _alloc: Global, send: Send) -> Result<(), Memory>
        ensures ok { OnOk result (self.new ≡ self.old ++ send ∷ []) }
        ensures err { OnErr result (self.new ≡ self.old) }
    {
        match self.items.push(send) {
            Ok(()) => Ok(()),
            Err(_) => Err(Memory),
        }
    }

    /// The messages in order.
    pub fn as_slice(&self) -> &[Send]
        ensures { result.now ≡ self.now }
    {
        self.items.as_slice()
    }
}
