//! The names of timers.
ghost use Rattle.std.specs.Prelude.{◌≡◌, true};
ghost use Rattle.nas_timers.specs.Names.{is_before, is_name, same_name, session_of};

use nas_base::Psi;

/// How many names there are: 8 without a PDU session, and 5 for each of 15.
pub const NAMES: usize = 83;

/// The name of a timer (TS 24.501 clauses 10.2 and 10.3). Names are ordered by their numbers, and those of one number by their
/// PDU sessions.
#[derive(Clone, Copy, Debug, PartialEq, Eq, PartialOrd, Ord)]
pub enum TimerId {
    /// A handset awaits the answer to REGISTRATION REQUEST.
    T3510,
    /// A handset keeps a challenge and its answer.
    T3516,
    /// A handset awaits the answer to SERVICE REQUEST.
    T3517,
    /// A handset awaits DEREGISTRATION ACCEPT.
    T3521,
    /// The network awaits DEREGISTRATION ACCEPT.
    T3522,
    /// The network awaits REGISTRATION COMPLETE.
    T3550,
    /// The network awaits CONFIGURATION UPDATE COMPLETE.
    T3555,
    /// The network awaits the answer to AUTHENTICATION REQUEST or SECURITY MODE COMMAND.
    T3560,
    /// A handset awaits the answer to PDU SESSION ESTABLISHMENT REQUEST.
    T3580(Psi),
    /// A handset awaits the answer to PDU SESSION MODIFICATION REQUEST.
    T3581(Psi),
    /// A handset awaits the answer to PDU SESSION RELEASE REQUEST.
    T3582(Psi),
    /// The network awaits the answer to PDU SESSION MODIFICATION COMMAND.
    T3591(Psi),
    /// The network awaits PDU SESSION RELEASE COMPLETE.
    T3592(Psi),
}

impl TimerId {
    // Whether it is this name.
    pub(crate) fn is(&self, other: &TimerId) -> bool
        ensures { result ≡ same_name self.now other.now }
    {
        self == other
    }

    // Whether it stands before another name.
    pub(crate) fn is_before(&self, other: &TimerId) -> bool
        ensures { result ≡ is_before self.now other.now }
    {
        self < other
    }

    // The number of its PDU session, or 0 where it has none. Whoever reads it knows that this is one of the names.
    pub(crate) fn session(&self) -> u8
        ensures session { result ≡ session_of self.now }
        ensures named { is_name self.now ≡ true }
    {
        match *self {
            TimerId::T3580(psi)
            | TimerId::T3581(psi)
            | TimerId::T3582(psi)
            | TimerId::T3591(psi)
            | TimerId::T3592(psi) => psi.0,
            _ => 0,
        }
    }
}
