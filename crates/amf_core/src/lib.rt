//! The AMF: what it does at octets that come up a link, at a command, at a timer, at what the SMF wants and at the loss of a link
//! (TS 24.501 clauses 4.4, 5 and 7, TS 33.501 clause 6). Time, random octets and octets are handed in; nothing here reads a clock.
#![tactic(auto)]

mod acceptance;
mod acts;
mod amf;
mod authentication;
mod challenges;
mod changes;
mod checks;
mod commands;
mod config;
mod configuration_update;
mod delivery;
mod deregistration;
mod draft;
mod events;
mod framing;
mod identification;
mod inputs;
mod link;
mod naming;
mod offers;
mod outs;
mod procedures;
mod registration;
mod requests;
mod security_mode;
mod service;
mod stepping;
mod subscriber;
mod transport;
mod view;
mod work;

pub use crate::amf::Amf;
pub use crate::changes::Changes;
pub use crate::config::{AmfConfig, AmfSubscriber, AmfSubscribers, Configured};
pub use crate::draft::Draft;
pub use crate::inputs::{AmfInput, AmfRefusal};
pub use crate::link::Link;
pub use crate::outs::{AmfOut, AmfOuts, SmfAsk, SmfCall};
pub use crate::procedures::{
    Accepting, Authentication, Challenging, Deregistering, Phase, Procedure, Purpose, Updating,
};
pub use crate::requests::{KeptIdentity, Request};
pub use crate::stepping::{follow, step};
pub use crate::subscriber::{Gutis, KeptGuti, Offer, OfferKind, Record};
pub use crate::view::NetView;
