//! What goes out of a handset's sessions.
ghost use Rattle.std.specs.Prelude.{◌≡◌, [], ◌∷◌, ◌++◌, OnErr, OnOk};

use nas_base::{Memory, Moment, Octets, Psi};
use nas_elements::Dnn;
use nas_timers::TimerId;
use std::alloc::Global;
use std::marker::Model;

/// What goes out of a handset's sessions.
#[derive(Drop)]
pub enum SmOut {
    /// A message of a session is to be carried. One that asks for a new session names its data network.
    Carry {
        psi: Psi,
        dnn: Option<Dnn>,
        frame: Octets,
    },
    /// A timer is started.
    Start {
        id: TimerId,
        at: Moment,
    },
    /// A timer is stopped.
    Stop(TimerId),
}

/// What goes out, in order.
#[derive(Drop)]
pub struct SmOuts {
    pub items: Vec<SmOut>,
}

impl Model for SmOuts {
    ghost use Rattle.std.specs.Prelude.{List};
    ghost use Rattle.ue_sm.specs.declared.outs.SmOut.{SmOut};

    ghost Value = { List SmOut };

    ghost view = { λ o. o.items.items };
}

impl SmOuts {
    /// Nothing.
    pub fn new(alloc: Global) -> SmOuts
        ensures { result ≡ [] }
    {
        SmOuts {
            items: Vec::new(alloc),
        }
    }

    /// One more at the end.
    ///
    /// # Errors
    ///
    /// `Memory`; nothing then changes.
    pub fn push(&mut self, out: SmOut) -> Result<(), Memory>
        ensures ok { OnOk result (self.new ≡ self.old ++ out ∷ []) }
        ensures err { OnErr result (self.new ≡ self.old) }
    {
        match self.items.push(out) {
            Ok(()) => Ok(()),
            Err(_) => Err(Memory),
        }
    }
}
