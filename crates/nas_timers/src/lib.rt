//! The timers of one end for one subscriber: their names, how long each runs, and which of them is due.
#![tactic(auto)]

mod durations;
pub mod laws;
mod timer_id;
mod timers;

pub use crate::durations::{Durations, deadline_after};
pub use crate::timer_id::{NAMES, TimerId};
pub use crate::timers::Timers;
