//! What the messages of 5GMM and 5GSM share: the table of a message behind its head, and how its parts and elements are read and
//! told piece by piece.
#![tactic(auto)]

mod abba;
mod body;
mod coded;
mod containers;
mod elements;
mod frame;
mod half;
pub mod iei;
pub mod laws;
mod octets;
mod pieces;
mod reading;
mod rows;
mod size;
mod writing;

pub use crate::abba::Abba;
pub use crate::body::{BodyRefusal, cut};
pub use crate::coded::{Coded, Readable, Spelled};
pub use crate::containers::{container_part, identity_part, known_container};
pub use crate::frame::Frame;
pub use crate::half::{Half, two_halves};
pub use crate::pieces::{Pieces, element, part};
pub use crate::reading::{known, read_part};
pub use crate::rows::{fixed_row, tlv_row, tlve_row};
pub use crate::size::{Size, TooManyPieces};
