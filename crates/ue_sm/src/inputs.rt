//! What comes to a handset's sessions, and why a command is refused.

use nas_base::{Octets, Psi, SmWord};
use nas_elements::{Dnn, Status};
use nas_qos::{QosFault, RuleOps};
use nas_timers::TimerId;
use std::marker::Model;

// The identity of a transaction that is used last under a security context.
pub(crate) const LAST_PTI: u8 = 254;

/// The type that a handset asks for: 1 is IPv4, 2 is IPv6, 3 is IPv4v6 (TS 24.501 clause 9.11.4.11).
#[derive(Clone, Copy, Debug, PartialEq, Eq)]
pub struct SessionKind(pub u8);

impl Model for SessionKind {
    ghost use Rattle.std.specs.Prelude.{ℕ, ◌≤◌};

    ghost Value = { ℕ };

    ghost view = { λ k. k.0 };

    ghost invariant = { λ k. (1 ≤ k.0) × (k.0 ≤ 3) };

    ghost inverse = { λ n. record { 0 = n } };
}

/// A command to a handset's sessions.
#[derive(Drop)]
pub enum SmCommand {
    /// To establish a session of a type, to a data network (TS 24.501 clause 6.4.1.2).
    Establish {
        psi: Psi,
        kind: SessionKind,
        dnn: Dnn,
    },
    /// To modify the QoS rules of a session (clause 6.4.2.2).
    Modify {
        psi: Psi,
        ops: RuleOps,
    },
    /// To release a session (clause 6.4.3.2).
    Release {
        psi: Psi,
    },
}

/// What comes to a handset's sessions.
#[derive(Drop)]
pub enum SmInput {
    Command(SmCommand),
    /// A message of the network.
    Frame(Octets),
    /// A message of theirs that wasn't forwarded.
    NotForwarded(Octets),
    /// A timer expired.
    Expired(TimerId),
    /// A security context was taken into use, or the handset was restarted: the identities of transactions begin anew.
    NewContext,
    /// What they have under way is lost.
    Abandon,
    /// All sessions are inactive.
    Clear,
    /// Sessions outside this set are inactive.
    Keep(Status),
}

/// Why a step was refused.
#[derive(Clone, Copy, Debug, PartialEq, Eq)]
pub enum SmStepRefusal {
    /// There is no session of this identity to modify or to release.
    NoSuchSession { psi: Psi },
    /// There is a session of this identity, or one is being established.
    SessionThere { psi: Psi },
    /// A transaction of the session is open.
    WrongState { state: SmWord },
    /// The operations don't apply to the session's rules.
    Qos(QosFault),
    /// No identity is left for a transaction: `last`, 254, was used under this security context.
    NoPti { last: u8 },
    /// There was no memory left.
    Memory,
}
