//! Messages as text, for people: a line for each part and each element.
#![tactic(auto)]

pub mod laws;
mod lines;
mod sessions;
mod showing;

pub use crate::showing::{ShowRefusal, show};
