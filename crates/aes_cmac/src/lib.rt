//! The block cipher AES-128 (FIPS 197), its counter mode (SP 800-38A) and its CMAC (RFC 4493), and the algorithms 128-NEA2 and
//! 128-NIA2 that 5GS security makes of them (TS 33.501 Annex D).
//!
//! Each call answers for every key and for octets of any number, and takes no memory. None of them runs in a time that is
//! independent of its arguments.
#![tactic(auto)]

mod algorithms;
mod blocks;
mod cipher;
mod counter;
mod field;
pub mod laws;
mod mac;
mod rounds;
mod schedule;
mod state;
mod substitution;

pub use crate::algorithms::{nea2, nia2};
pub use crate::cipher::encrypt_block;
pub use crate::counter::ctr_apply;
pub use crate::mac::cmac;
