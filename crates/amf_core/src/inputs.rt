//! What comes to an AMF, and why a command is refused.

use nas_base::{AmfWord, Octets, Psi, Supi};
use nas_elements::Status;
use nas_timers::TimerId;

/// What comes to an AMF.
#[derive(Drop)]
pub enum AmfInput {
    /// Octets came up a link, 1 to 64; `fresh` where they are the first of a connection.
    Uplink {
        link: u16,
        fresh: bool,
        octets: Octets,
    },
    /// A timer of a subscriber expired.
    Expired {
        supi: Supi,
        id: TimerId,
    },
    /// The command to authenticate a subscriber, and to take a new context into use with it (TS 24.501 clauses 5.4.1.3 and 5.4.2).
    Authenticate(Supi),
    /// The command to de-register a subscriber (TS 24.501 clause 5.5.2.3).
    Deregister(Supi),
    /// The command to give a subscriber a new 5G-GUTI (TS 24.501 clause 5.4.4).
    Update(Supi),
    /// The SMF wants a security mode procedure.
    Fence(Supi),
    /// The SMF tells which sessions there are.
    Sessions {
        supi: Supi,
        status: Status,
    },
    /// The SMF has a 5GSM message for the handset.
    Down {
        supi: Supi,
        psi: Psi,
        frame: Octets,
    },
    /// A link is lost, 1 to 64.
    Dropped {
        link: u16,
    },
}

/// Why a step was refused.
#[derive(Clone, Copy, Debug, PartialEq, Eq)]
pub enum AmfRefusal {
    /// No subscriber has this SUPI.
    UnknownSupi,
    /// The command doesn't begin in this state, or a procedure is open.
    WrongState { state: AmfWord },
    /// No sequence number is left behind this one.
    SqnSpent { sqn: u64 },
    /// The last 5G-GUTI that was offered, with this 5G-TMSI, isn't confirmed.
    Uncompleted { tmsi: u32 },
    /// The context in use has had an update, with this 5G-TMSI.
    Updated { tmsi: u32 },
    /// No 5G-TMSI is left behind this one.
    TmsiSpent { last: u32 },
    /// There was no memory left.
    Memory,
}
