//! Which message is taken in which state, at a handset and at the AMF.
#![tactic(auto)]

mod action;
mod mm;
mod plain;
mod sm;

pub use crate::action::{Action, PtiCase};
pub use crate::mm::{collide_amf, collide_mm};
pub use crate::plain::{permitted_amf, permitted_ue};
pub use crate::sm::collide_sm;
