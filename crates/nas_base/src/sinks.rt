//! Sinks in memory.
ghost use Rattle.std.specs.Prelude.{◌≡◌, ◌/◌, [], Some, if◌then◌else◌, length, take};
ghost use Rattle.nas_base.specs.Outside.{Tells, is_failed};
ghost use Rattle.nas_base.specs.Sinks.{Tries};

use crate::{Sink, WriteRefusal};
use std::alloc::Global;
use std::marker::Model;

/// A sink in memory that never fails.
#[derive(Drop)]
pub struct MemorySink {
    octets: Vec<u8>,
}

impl Model for MemorySink {
    ghost use Rattle.std.specs.Prelude.{ℕ, List};

    ghost Value = { List ℕ };

    ghost view = { λ s. s.octets.items };
}

impl MemorySink {
    /// A sink to which nothing was written.
    pub fn new(alloc: Global) -> MemorySink
        ensures { result ≡ [] }
    {
        MemorySink {
            octets: Vec::new(alloc),
        }
    }

    /// The octets that were written.
    pub fn octets(&self) -> &[u8]
        ensures { result.now ≡ self.now }
    {
        self.octets.as_slice()
    }
}

impl Sink for MemorySink {
    ghost use Rattle.std.specs.Prelude.{Some};

    ghost written = { λ s. Some s };

    ghost fault_count = { λ _. 0 };

    fn write(&mut self, _alloc: Global, octets: &[u8]) -> Result<(), WriteRefusal> {
        match self.octets.extend_from_slice(octets) {
            Ok(()) => Ok(()),
            Err(_) => Err(WriteRefusal::Memory),
        }
    }

    fn faults(&self) -> u64 {
        0
    }
}

/// A sink in memory with a list of the calls that are to fail. A call that fails writes the first half of its octets, of an odd
/// number the smaller half.
#[derive(Drop)]
pub struct FaultySink {
    octets: Vec<u8>,
    failing: Vec<u64>,
    calls: u64,
    faults: u64,
}

impl Model for FaultySink {
    ghost use Rattle.nas_base.specs.Sinks.{Trial};

    ghost Value = { Trial };

    ghost view = { λ s. record { written = s.octets.items; failing = s.failing.items; calls = s.calls; faults = s.faults } };
}

impl FaultySink {
    /// A sink to which nothing was written. Of its writes, counted from 1, those in `failing` are to fail.
    pub fn new(alloc: Global, failing: Vec<u64>) -> FaultySink
        ensures { result ≡ record { written = []; failing = failing.items; calls = 0; faults = 0 } }
    {
        FaultySink {
            octets: Vec::new(alloc),
            failing,
            calls: 0,
            faults: 0,
        }
    }

    /// The octets that were written.
    pub fn octets(&self) -> &[u8]
        ensures { result.now ≡ self.now.written }
    {
        self.octets.as_slice()
    }
}

// What a call writes of the octets, where it is to fail and where it isn't.
fn tried(octets: &[u8], fails: bool) -> &[u8]
    ensures { result.now ≡ (if fails then take (length octets.now / 2) octets.now else octets.now) }
{
    if fails {
        octets.split_at(octets.len() / 2).0
    } else {
        octets
    }
}

impl Sink for FaultySink {
    ghost use Rattle.std.specs.Prelude.{Some};

    ghost written = { λ s. Some s.written };

    ghost fault_count = { λ s. s.faults };

    fn write(&mut self, _alloc: Global, octets: &[u8]) -> Result<(), WriteRefusal>
        ensures tells { Tells is_failed (Some self.old.written) (Some self.new.written) self.old.faults self.new.faults octets.now result }

        // It fails exactly at the calls that are listed, where there is memory for the half.
        ensures tries { Tries result octets.now self.old self.new }
    {
        self.calls = self.calls.saturating_add(1);
        let fails = self.failing.contains(&self.calls);
        if self.octets.extend_from_slice(tried(octets, fails)).is_err() {
            return Err(WriteRefusal::Memory);
        }
        if fails {
            self.faults = self.faults.saturating_add(1);
            return Err(WriteRefusal::Failed);
        }
        Ok(())
    }

    fn faults(&self) -> u64 {
        self.faults
    }
}
