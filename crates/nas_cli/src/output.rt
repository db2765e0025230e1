//! The standard output, or any other writer, as a sink. It tells of its octets what its writer tells: a standard output
//! tells nothing.

ghost use Rattle.std.specs.Prelude.{◌≡◌};
ghost use Rattle.nas_base.specs.Outside.{Rose};
ghost use Rattle.nas_base.specs.declared.outside.WriteRefusal.TheVariants.{Failed};

use nas_base::{Sink, WriteRefusal};
use std::alloc::Global;
use std::io::{ErrorKind, Write};

/// A writer with a count of its failures. A write that takes nothing is one.
#[derive(Drop)]
pub struct Output<W> {
    writer: W,
    faults: u64,
}

impl<W> Output<W> {
    /// This writer, which has not failed yet.
    pub fn new(writer: W) -> Self
        ensures writer { result.writer ≡ writer }
        ensures count { result.faults ≡ 0 }
    {
        Output { writer, faults: 0 }
    }

    // A failure, which is counted.
    fn failed(&mut self) -> WriteRefusal
        ensures value { result ≡ Failed }
        ensures writer { self.new.writer ≡ self.old.writer }
        ensures rose { Rose self.old.faults self.new.faults }
    {
        self.faults = self.faults.saturating_add(1);
        WriteRefusal::Failed
    }
}

impl<W: Write> Sink for Output<W> {
    ghost written = { λ s. W.contents s.writer };

    ghost fault_count = { λ s. s.faults };

    fn write(&mut self, _alloc: Global, octets: &[u8]) -> Result<(), WriteRefusal> {
        let mut taken = 0;
        while taken < octets.len() {
            match self.writer.write(&octets[taken..]) {
                Ok(0) => return Err(self.failed()),
                Ok(count) => taken += count,
                Err(error) if error.kind() == ErrorKind::OutOfMemory => {
                    return Err(WriteRefusal::Memory);
                }
                Err(_) => return Err(self.failed()),
            }
        }
        Ok(())
    }

    fn faults(&self) -> u64 {
        self.faults
    }
}
