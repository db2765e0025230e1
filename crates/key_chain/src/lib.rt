//! The keys of a 5GS subscriber: HMAC and the key derivation function of 3GPP over it, the name of the serving network,
//! and the chain from CK and IK down to KAMF and the NAS keys, with RES* beside it (TS 33.220 Annex B, TS 33.501 Annex A).
//!
//! No call refuses and none takes memory. None of them runs in a time that is independent of its arguments.
#![tactic(auto)]

mod hmac;
mod kdf;
mod keys;
pub mod laws;
mod nas;
mod serving_network;

pub use crate::hmac::hmac256;
pub use crate::kdf::{kdf1, kdf2, kdf3};
pub use crate::keys::{ABBA, challenge_kamf, kamf, kausf, kseaf, res_star};
pub use crate::nas::{NasKeys, nas_keys};
pub use crate::serving_network::snn;
