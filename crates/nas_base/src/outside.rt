//! The sink that all output goes to.
ghost use Rattle.std.specs.Prelude.{◌≡◌, ℕ, List, Option};
ghost use Rattle.nas_base.specs.Outside.{Tells, is_failed};

use std::alloc::Global;

/// Why a write ended before its end. A front of its octets was written.
#[derive(Clone, Copy, Debug, PartialEq, Eq)]
pub enum WriteRefusal {
    /// The sink failed, and its count of faults rose.
    Failed,
    /// There was no memory left.
    Memory,
}

/// Where octets are written to.
pub trait Sink {
    /// The octets that were written, where the sink tells them.
    ghost written: { Self → Option (List ℕ) };

    /// How often the sink has failed. It never falls.
    ghost fault_count: { Self → ℕ };

    /// Writes all the octets, or with a refusal a front of them.
    fn write(&mut self, alloc: Global, octets: &[u8]) -> Result<(), WriteRefusal>
        ensures { Tells is_failed (written self.old) (written self.new) (fault_count self.old) (fault_count self.new) octets.now result };

    /// How often the sink has failed. At the last value of its type it stays there.
    fn faults(&self) -> u64
        ensures { result ≡ fault_count self.now };
}
