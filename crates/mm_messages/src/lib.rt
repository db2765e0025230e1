//! The messages of 5GS mobility management (5GMM), between octets and values (TS 24.501 clause 8.2).
#![tactic(auto)]

mod authentication;
mod configuration_update;
mod deregistration;
mod identification;
mod kind;
pub mod laws;
mod message;
mod registration;
mod security_mode;
mod service;
mod status_message;
mod transport;

pub use crate::authentication::{
    AuthenticationFailure, AuthenticationRequest, AuthenticationResponse,
};
pub use crate::configuration_update::ConfigurationUpdateCommand;
pub use crate::deregistration::{
    DeregistrationRequestUeOriginating, DeregistrationRequestUeTerminated,
};
pub use crate::identification::{IdentityRequest, IdentityResponse};
pub use crate::kind::kind_of;
pub use crate::message::{Mm, MmRefusal, decode_mm, encode_mm, tell};
pub use crate::registration::{
    RegistrationAccept, RegistrationReject, RegistrationRequest, RegistrationType,
};
pub use crate::security_mode::{SecurityModeCommand, SecurityModeComplete, SecurityModeReject};
pub use crate::service::{ServiceAccept, ServiceReject, ServiceRequest};
pub use crate::status_message::FiveGmmStatus;
pub use crate::transport::{DlNasTransport, UlNasTransport};
