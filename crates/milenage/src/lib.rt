//! MILENAGE, the functions that a subscriber's K and OPc are used by (TS 35.206), and the authentication vectors and
//! answers that are made with them (TS 33.102 clause 6.3). `Home` is what a home network keeps of its subscribers.
//!
//! No call takes memory but `Home::new`, `HomeList::push` and the copies of both. None of them runs in a time that is
//! independent of its arguments. The types that hold keys have no `Debug`, so that none is printed by oversight.
#![tactic(auto)]

mod autn;
mod functions;
mod home;
pub mod laws;
mod octets;
mod outputs;
mod subscribers;
mod vector;

pub use crate::autn::{AutnAnswer, check_autn};
pub use crate::functions::{f1, f1_star, f5_star, f2345, opc_of};
pub use crate::home::{Home, HomeRefusal, ResyncRefusal};
pub use crate::outputs::F2345;
pub use crate::subscribers::{HomeEntry, HomeList, HomeListRefusal};
pub use crate::vector::{Vector, make_vector};
