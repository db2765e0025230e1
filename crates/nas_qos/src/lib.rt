//! QoS rules: lists of operations on them between octets and values, and what the operations do to the rules of a session
//! (TS 24.501 clause 9.11.4.13).
#![tactic(auto)]

mod applying;
mod filter;
pub mod laws;
mod operation;
mod part;
mod reading;
mod refusals;
mod rule;
mod writing;

pub use crate::applying::apply;
pub use crate::filter::{Filter, Filters};
pub use crate::operation::{RuleOp, RuleOps};
pub use crate::part::{Part, Parts};
pub use crate::reading::read_ops;
pub use crate::refusals::{ApplyRefusal, OpsRefusal, QosFault};
pub use crate::rule::{Rule, Rules};
pub use crate::writing::write_ops;
