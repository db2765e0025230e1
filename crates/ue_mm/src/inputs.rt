//! What comes to a handset's 5GMM, and why a command is refused.

use nas_base::{Kind, MmWord, Octets, Psi};
use nas_elements::Dnn;
use nas_timers::TimerId;

/// A command to a handset's 5GMM.
#[derive(Clone, Copy, Debug, PartialEq, Eq)]
pub enum MmCommand {
    /// To register (TS 24.501 clauses 5.5.1.2 and 5.5.1.3).
    Register(Kind),
    /// To request service (clause 5.6.1).
    Service,
    /// To deregister, perhaps since it is switched off (clause 5.5.2.2).
    Deregister { switch_off: bool },
}

/// What comes to a handset's 5GMM.
#[derive(Drop)]
pub enum UeInput {
    Command(MmCommand),
    /// Octets reached it.
    Delivered(Octets),
    /// A timer expired.
    Expired(TimerId),
    /// The connection is lost.
    Dropped,
    /// The handset is switched off and on: all is lost but its configuration, and SQN_MS, which the card keeps.
    Restart,
    /// A message of a PDU session is to be carried. One that asks for a new session names its data network.
    Carry {
        psi: Psi,
        dnn: Option<Dnn>,
        frame: Octets,
    },
}

/// Why a step was refused.
#[derive(Clone, Copy, Debug, PartialEq, Eq)]
pub enum StepRefusal {
    /// The command doesn't begin in this state.
    WrongState { state: MmWord },
    /// The context has no count left for the command's message: the next one would be `next`, 2^24.
    Spent { next: u32 },
    /// There was no memory left.
    Memory,
}
