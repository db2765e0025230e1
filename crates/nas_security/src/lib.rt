//! The security contexts of the Non-Access Stratum, their NAS COUNTs, and the frames that messages are protected in
//! (TS 33.501 clause 6.4, TS 24.501 clause 4.4).
//!
//! No call takes memory but those of `Send` and `Sends`. None of them runs in a time that is independent of its arguments.
//! The types that hold keys have no `Debug`, so that none is printed by oversight.
#![tactic(auto)]

mod challenges;
mod contexts;
mod counts;
mod frames;
pub mod laws;
mod sends;
mod verdicts;

pub use crate::challenges::Challenge;
pub use crate::contexts::Context;
pub use crate::counts::accept;
pub use crate::frames::{Spent, protect};
pub use crate::sends::{Pass, Send, Sends};
pub use crate::verdicts::{Verdict, unprotect};
