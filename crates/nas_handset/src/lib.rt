//! A handset: its 5GMM with the timers that run, in moments that are told (TS 24.501 clause 5).
#![tactic(auto)]

mod command;
mod handset;
pub mod laws;
mod ticks;
mod turn;

pub use crate::command::{CommandRefusal, UeCommand};
pub use crate::handset::{Delivery, Handset};
