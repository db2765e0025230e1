//! What both ends of 5GMM do alike: what octets are told by, the opening of a frame, and the framing of a message (TS 24.501 clauses 4.4
//! and 9.1).
#![tactic(auto)]

mod digits;
mod framing;
mod heads;
pub mod laws;
mod opening;

pub use crate::digits::{are_same_digits, is_same_supi};
pub use crate::framing::{frame_under, spelled};
pub use crate::heads::{
    EPD_5GMM, FIVE_GMM_STATUS, header_type, inside, is_too_long, message_type, octet_at,
};
pub use crate::opening::{counted, open};
