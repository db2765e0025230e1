//! The commands to a handset.
ghost use Rattle.std.specs.Prelude.{◌≡◌};
ghost use Rattle.nas_handset.specs.Handset.{mm_command};

use nas_base::{Kind, MmWord};
use ue_mm::MmCommand;

/// A command to a handset.
#[derive(Clone, Copy, Debug, PartialEq, Eq)]
pub enum UeCommand {
    /// To register (TS 24.501 clauses 5.5.1.2 and 5.5.1.3).
    Register(Kind),
    /// To request service (clause 5.6.1).
    Service,
    /// To deregister, perhaps since it is switched off (clause 5.5.2.2).
    Deregister { switch_off: bool },
}

/// Why a command was refused.
#[derive(Clone, Copy, Debug, PartialEq, Eq)]
pub enum CommandRefusal {
    /// It doesn't begin in this state.
    WrongState { state: MmWord },
    /// The context has no count left for its message: the next one would be `next`, 2^24.
    Spent { next: u32 },
    /// There was no memory left.
    Memory,
}

impl UeCommand {
    /// As a command to the mobility management.
    pub(crate) fn to_mm(self) -> MmCommand
        ensures { result ≡ mm_command self }
    {
        match self {
            UeCommand::Register(kind) => MmCommand::Register(kind),
            UeCommand::Service => MmCommand::Service,
            UeCommand::Deregister { switch_off } => MmCommand::Deregister { switch_off },
        }
    }
}
