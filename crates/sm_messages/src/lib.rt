//! The messages of 5GS session management (5GSM), between octets and values (TS 24.501 clause 8.3).
#![tactic(auto)]

mod establishment;
mod flow_descriptions;
mod kind;
pub mod laws;
mod message;
mod modification;
mod release;
mod session;
mod session_type;
mod status_message;

pub use crate::establishment::{
    PduSessionEstablishmentAccept, PduSessionEstablishmentReject, PduSessionEstablishmentRequest,
};
pub use crate::flow_descriptions::FlowDescriptions;
pub use crate::kind::kind_of;
pub use crate::message::{Sm, SmFrame, SmRefusal, decode_sm, encode_sm, tell};
pub use crate::modification::{
    PduSessionModificationCommand, PduSessionModificationCommandReject,
    PduSessionModificationReject, PduSessionModificationRequest,
};
pub use crate::release::{
    PduSessionReleaseCommand, PduSessionReleaseComplete, PduSessionReleaseReject,
    PduSessionReleaseRequest,
};
pub use crate::session::Session;
pub use crate::session_type::SessionType;
pub use crate::status_message::FiveGsmStatus;
