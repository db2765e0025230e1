//! The commands to a network, and what it answers.
ghost use Rattle.std.specs.Prelude.{◌≡◌};
ghost use Rattle.nas_network.specs.Network.{amf_command, refusal_of};

use amf_core::{AmfInput, AmfRefusal};
use nas_base::{AmfWord, Supi};
use nas_security::{Pass, Sends};

/// A command to a network.
#[derive(Drop)]
pub enum NetCommand {
    /// To authenticate a subscriber, and to take a new context into use with it (TS 24.501 clauses 5.4.1.3 and 5.4.2).
    Authenticate(Supi),
    /// To de-register a subscriber (clause 5.5.2.3).
    Deregister(Supi),
    /// To give it a new 5G-GUTI (clause 5.4.4).
    Update { supi: Supi },
}

/// Why a command was refused.
#[derive(Clone, Copy, Debug, PartialEq, Eq)]
pub enum NetRefusal {
    /// No subscriber has this SUPI.
    UnknownSupi,
    /// The command doesn't begin in this state, or a procedure is open.
    WrongState { state: AmfWord },
    /// No sequence number is left behind this one.
    SqnSpent { sqn: u64 },
    /// The last 5G-GUTI that was offered, with this 5G-TMSI, isn't confirmed.
    Uncompleted { tmsi: u32 },
    /// The context in use has had an update, with this 5G-TMSI.
    Updated { tmsi: u32 },
    /// No 5G-TMSI is left behind this one.
    TmsiSpent { last: u32 },
    /// There was no memory left.
    Memory,
}

/// What came of an event.
#[derive(Drop)]
pub struct NetDelivery {
    /// The messages that were sent.
    pub sends: Sends,
    /// The check that the octets passed, if they did.
    pub passed: Option<Pass>,
}

impl NetCommand {
    /// As an input of the AMF.
    pub(crate) fn to_amf(&self) -> AmfInput
        ensures { result ≡ amf_command self.now }
    {
        match self {
            NetCommand::Authenticate(supi) => AmfInput::Authenticate(supi.copy()),
            NetCommand::Deregister(supi) => AmfInput::Deregister(supi.copy()),
            NetCommand::Update { supi } => AmfInput::Update(supi.copy()),
        }
    }
}

impl NetRefusal {
    /// As the AMF says it.
    pub(crate) fn from_amf(refusal: AmfRefusal) -> NetRefusal
        ensures { result ≡ refusal_of refusal }
    {
        match refusal {
            AmfRefusal::UnknownSupi => NetRefusal::UnknownSupi,
            AmfRefusal::WrongState { state } => NetRefusal::WrongState { state },
            AmfRefusal::SqnSpent { sqn } => NetRefusal::SqnSpent { sqn },
            AmfRefusal::Uncompleted { tmsi } => NetRefusal::Uncompleted { tmsi },
            AmfRefusal::Updated { tmsi } => NetRefusal::Updated { tmsi },
            AmfRefusal::TmsiSpent { last } => NetRefusal::TmsiSpent { last },
            AmfRefusal::Memory => NetRefusal::Memory,
        }
    }
}
