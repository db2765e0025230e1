//! The information elements of 5GMM and 5GSM messages, each between octets and a value (TS 24.501 clause 9.11): `read` answers
//! the value that octets have, or where they are wrong, and `write` writes a value's octets.
#![tactic(auto)]

mod address;
mod algs;
mod ambr;
mod asi;
mod capability;
mod dnn;
mod dnns;
mod guti;
mod identity;
pub mod laws;
mod layout;
mod nssai;
mod numbers;
mod other;
mod packed;
mod slice;
mod status;
mod suci;
mod tai_list;
mod timer3;
mod wrong;

pub use crate::address::Address;
pub use crate::algs::Algs;
pub use crate::ambr::Ambr;
pub use crate::asi::Asi;
pub use crate::capability::Capability;
pub use crate::dnn::Dnn;
pub use crate::dnns::Dnns;
pub use crate::guti::{Guti, Stmsi};
pub use crate::identity::{Identity, IdentityRefusal};
pub use crate::nssai::Nssai;
pub use crate::numbers::in_two_octets;
pub use crate::other::OtherIdentity;
pub use crate::slice::Slice;
pub use crate::status::Status;
pub use crate::suci::Suci;
pub use crate::tai_list::TaiList;
pub use crate::timer3::Timer3;
pub use crate::wrong::Wrong;
