//! What every other crate of the workspace stands on: octets, a reader and a writer over them, the walk over a message's
//! elements, the small values of the 5GS Non-Access Stratum, and the sink that all output goes to.
#![tactic(auto)]

mod count;
mod digits;
mod elements;
mod head;
mod kind;
mod ksi;
pub mod laws;
mod memory;
pub mod mm_cause;
mod mm_kind;
mod moment;
mod octets;
mod outside;
mod plmn;
mod reader;
mod session;
mod shape;
mod sinks;
pub mod sm_cause;
mod sm_kind;
mod state_words;
mod supi;
mod writer;

pub use crate::count::{Count, Dir};
pub use crate::digits::Digits;
pub use crate::elements::{Elements, walk};
pub use crate::kind::Kind;
pub use crate::ksi::Ksi;
pub use crate::memory::Memory;
pub use crate::mm_kind::MmKind;
pub use crate::moment::Moment;
pub use crate::octets::{Octets, Octets1M, OctetsRefusal};
pub use crate::outside::{Sink, WriteRefusal};
pub use crate::plmn::Plmn;
pub use crate::reader::{Reader, Short};
pub use crate::session::{Psi, Pti};
pub use crate::shape::{Form, Row, Shape};
pub use crate::sinks::{FaultySink, MemorySink};
pub use crate::sm_kind::SmKind;
pub use crate::state_words::{AmfWord, MmWord, SmWord, SmfWord};
pub use crate::supi::Supi;
pub use crate::writer::{Full, Writer};
