//! The addresses that an SMF gives to its sessions: pools of IPv4 addresses and of IPv6 interface identifiers, and which of
//! them a data network has. The least free address is taken first, and nothing but making and copying pools takes memory.
#![tactic(auto)]

mod bits;
mod config;
mod family;
mod kinds;
pub mod laws;
mod numbers;
mod pools;
mod refusals;

pub use crate::config::{Pool6, is_pool_size, pool_fits};
pub use crate::kinds::{DnnKind, DnnKinds};
pub use crate::pools::Pools;
pub use crate::refusals::{Empty, NotTaken};
