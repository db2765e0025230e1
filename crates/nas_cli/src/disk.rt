//! The files of the machine. Which octets a name leads to is not told; what is read of an open file is.
ghost use Rattle.std.specs.Prelude.{◌≡◌, ◌≤◌, ◌≢◌};
ghost use Rattle.nas_base.specs.Outside.{Rose};
ghost use Rattle.nas_cli.specs.Disk.{IsErrorOfReading, ReadsOpen, ReadsWhole};
ghost use Rattle.nas_cli.specs.declared.files.FileRefusal.TheVariants.{Failed, Memory};
ghost use Rattle.std.specs.IoError.{error_kind};
ghost use Rattle.std.specs.declared.io.ErrorKind.TheVariants.{OutOfMemory};

use crate::files::{FileRefusal, Files};
use nas_base::Octets1M;
use std::alloc::Global;
use std::fs::{self, OpenFile};
use std::io::{self, Read};
use std::rt;

// So many octets are read at a time.
const PIECE: usize = 16384;

/// The files that a path leads to.
#[derive(Drop)]
pub struct Disk<'a, R: rt::Files> {
    runtime: &'a R,
    faults: u64,
}

impl<'a, R: rt::Files> Disk<'a, R> {
    /// The files that this runtime reaches.
    pub fn new(runtime: &'a R) -> Self
        ensures { result.faults ≡ 0 }
    {
        Disk { runtime, faults: 0 }
    }

    // The same refusal, and counts it where it is a failure.
    fn counted(&mut self, refusal: FileRefusal) -> FileRefusal
        ensures value { result ≡ refusal }
        ensures count { self.old.faults ≤ self.new.faults }
        ensures rose { refusal ≡ Failed → Rose self.old.faults self.new.faults }
    {
        if refusal == FileRefusal::Failed {
            self.faults = self.faults.saturating_add(1);
        }
        refusal
    }
}

// Want of memory is told apart from all other failures.
fn refusal_of(error: io::Error) -> FileRefusal
    ensures value { IsErrorOfReading result }
    ensures memory { result ≡ Memory → error_kind error ≡ OutOfMemory }
    ensures failed { result ≡ Failed → error_kind error ≢ OutOfMemory }
{
    if error.kind() == io::ErrorKind::OutOfMemory {
        FileRefusal::Memory
    } else {
        FileRefusal::Failed
    }
}

// The octets that a reader has left, of which there are at most `limit`. `TooLong` names how many had been read.
#[tactic(auto, using(crate::proofs::DiskLaws::takes_nothing, crate::proofs::DiskLaws::takes_more, crate::proofs::DiskLaws::takes_all, crate::proofs::DiskLaws::takes_size))]
pub fn read_whole<F: Read>(alloc: Global, file: &mut F, limit: u32) -> Result<Octets1M, FileRefusal>
    requires { limit ≤ 1048576 }
    ensures { ReadsWhole limit (F.remaining file.old) (F.remaining file.new) result }
{
    let mut items = Vec::new(alloc);
    let mut piece = [0; PIECE];
    for _ in 0..u64::MAX {
        match file.read(&mut piece) {
            Ok(0) => return Ok(Octets1M { items }),
            Ok(count) => {
                let size = items.len() + count;
                if size > limit as usize {
                    return Err(FileRefusal::TooLong { size: size as u64 });
                }
                if items.extend_from_slice(&piece[..count]).is_err() {
                    return Err(FileRefusal::Memory);
                }
            }
            Err(error) => return Err(refusal_of(error)),
        }
    }
    Err(FileRefusal::Failed)
}

// The octets of an open file, which may tell how long it is. One that tells a length above the limit is not read.
pub fn read_open<F: Read>(
    alloc: Global,
    file: &mut F,
    told: Option<u64>,
    limit: u32,
) -> Result<Octets1M, FileRefusal>
    requires { limit ≤ 1048576 }
    ensures { ReadsOpen told limit (F.remaining file.old) (F.remaining file.new) result }
{
    match told {
        Some(size) if size > limit as u64 => Err(FileRefusal::TooLong { size }),
        _ => read_whole(alloc, file, limit),
    }
}

impl<R: rt::Files> Files for Disk<'_, R> {
    ghost use Rattle.std.specs.Prelude.{None};

    ghost content = { λ _. None };

    ghost asked = { λ _. None };

    ghost fault_count = { λ s. s.faults };

    fn read(&mut self, alloc: Global, name: &str, limit: u32) -> Result<Octets1M, FileRefusal> {
        let read = match fs::open(self.runtime, name) {
            Ok(mut file) => {
                let told = file.metadata().ok().map(|metadata| metadata.len());
                read_open(alloc, &mut file, told, limit)
            }
            Err(error) => Err(refusal_of(error)),
        };
        match read {
            Ok(octets) => Ok(octets),
            Err(refusal) => Err(self.counted(refusal)),
        }
    }

    fn faults(&self) -> u64 {
        self.faults
    }
}
