//! What comes to an SMF, and why a command is refused.
ghost use Rattle.std.specs.Prelude.{◌≡◌, true};
ghost use Rattle.smf_core.specs.Laws.{names_one};
ghost use Rattle.smf_core.specs.declared.inputs.SmfInput.TheVariants.{Expired};

use nas_base::{Octets, Psi, SmfWord};
use nas_elements::{Ambr, Dnn, Slice, Status};
use nas_qos::{QosFault, RuleOps};
use nas_security::Challenge;
use nas_timers::TimerId;

/// What comes to an SMF for a subscriber.
#[derive(Drop)]
pub enum SmfInput {
    /// A 5GSM message came, under the context of this challenge, beside the PDU session identity that it was carried
    /// for; one that asks for a new session may name its data network and its slice.
    Frame {
        psi: Psi,
        challenge: Challenge,
        dnn: Option<Dnn>,
        slice: Option<Slice>,
        octets: Octets,
    },
    /// Another context is in use.
    Switched,
    /// All sessions are to be released.
    ReleaseAll,
    /// All sessions outside this set are to be released.
    KeepOnly(Status),
    /// A timer expired.
    Expired(TimerId),
    /// The command to modify a session: operations on its QoS rules, and a session AMBR where
    /// it is to change (TS 24.501 clause 6.3.2).
    Modify {
        psi: Psi,
        ops: RuleOps,
        ambr: Option<Ambr>,
    },
    /// The command to release a session (TS 24.501 clause 6.3.3).
    Release {
        psi: Psi,
    },
}

// The same of a timer.
fn timer_names_one(id: &TimerId)
    ensures { names_one (Expired id.now) ≡ true }
{
    let _number = match *id {
        TimerId::T3591(psi) => psi.0,
        TimerId::T3592(psi) => psi.0,
        _ => 1,
    };
}

impl SmfInput {
    /// Says that the identities that it names are some.
    pub fn names_identities(&self)
        ensures { names_one self.now ≡ true }
    {
        let _number = match self {
            SmfInput::Frame { psi, .. } => psi.0,
            SmfInput::Switched => 1,
            SmfInput::ReleaseAll => 1,
            SmfInput::KeepOnly(_) => 1,
            SmfInput::Expired(id) => return timer_names_one(id),
            SmfInput::Modify { psi, .. } => psi.0,
            SmfInput::Release { psi } => psi.0,
        };
    }
}

/// Why a step was refused.
#[derive(Clone, Copy, Debug, PartialEq, Eq)]
pub enum SmfRefusal {
    /// There is no session of this identity.
    NoSuchSession { psi: Psi },
    /// The session is busy with a command.
    WrongState { state: SmfWord },
    /// The session's last command was given out `sent` times, and copies of it or of its answer may still be under way.
    Settling { sent: u8 },
    /// The operations don't go with the session's rules.
    Qos(QosFault),
    /// The session would stay as it is, or the command would be its last one once more.
    NoChange,
    /// There was no memory left.
    Memory,
}
