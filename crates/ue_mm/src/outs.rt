//! What goes out of a handset's 5GMM.
ghost use Rattle.std.specs.Prelude.{◌≡◌, [], ◌∷◌, ◌++◌, OnErr, OnOk};

use nas_base::{Memory, Moment, Octets};
use nas_elements::Status;
use nas_security::{Context, Pass};
use nas_timers::TimerId;
use std::alloc::Global;
use std::marker::Model;

/// What goes out of a handset's 5GMM.
#[derive(Drop)]
pub enum UeOut {
    /// A message is sent; `fresh` where it is the first of its connection, `pass` what protects it, nothing where it is plain.
    Send {
        fresh: bool,
        octets: Octets,
        pass: Option<Pass>,
    },
    /// A message passed this check.
    Passed(Pass),
    /// This context was taken into use.
    Took(Context),
    /// A 5GSM message for the sessions.
    ToSession(Octets),
    /// A 5GSM message of a session that the network didn't forward.
    NotForwarded(Octets),
    /// What the sessions have under way is lost.
    Abandon,
    /// All sessions are inactive.
    Clear,
    /// Sessions outside this set are inactive.
    Keep(Status),
    /// A timer is started.
    Start {
        id: TimerId,
        at: Moment,
    },
    /// A timer is stopped.
    Stop(TimerId),
}

/// What goes out, in order.
#[derive(Drop)]
pub struct UeOuts {
    pub items: Vec<UeOut>,
}

impl Model for UeOuts {
    ghost use Rattle.std.specs.Prelude.{List};
    ghost use Rattle.ue_mm.specs.declared.outs.UeOut.{UeOut};

    ghost Value = { List UeOut };

    ghost view = { λ o. o.items.items };
}

impl UeOuts {
    /// Nothing.
    pub fn new(alloc: Global) -> UeOuts
        ensures { result ≡ [] }
    {
        UeOuts {
            items: Vec::new(alloc),
        }
    }

    /// One more at the end.
    ///
    /// # Errors
    ///
    /// `Memory`; nothing then changes.
    pub fn push(&mut self, _alloc: Global, out: UeOut) -> Result<(), Memory>
        ensures ok { OnOk result (self.new ≡ self.old ++ out ∷ []) }
        ensures err { OnErr result (self.new ≡ self.old) }
    {
        match self.items.push(out) {
            Ok(()) => Ok(()),
            Err(_) => Err(Memory),
        }
    }
}
