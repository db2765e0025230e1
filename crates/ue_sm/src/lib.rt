//! The sessions of a handset (5GSM): what it does at a command, at messages of the network, at a timer, and at what its
//! mobility management tells (TS 24.501 clause 6). Time and octets are handed in; nothing here reads a clock.
#![tactic(auto)]

mod cells;
mod commands;
mod delivery;
mod establishment;
mod inputs;
pub mod laws;
mod messages;
mod mobility;
mod modification;
mod network_commands;
mod outs;
mod release;
mod rules;
mod state;
mod stepping;
mod timers;
mod transactions;
mod transitions;
mod view;
mod work;

pub use crate::cells::{Answer, Answered, Cell, Held};
pub use crate::inputs::{SessionKind, SmCommand, SmInput, SmStepRefusal};
pub use crate::outs::{SmOut, SmOuts};
pub use crate::state::UeSm;
pub use crate::stepping::step;
pub use crate::transactions::Transaction;
pub use crate::view::UeSession;
