//! Where files are read from.
ghost use Rattle.std.specs.Prelude.{◌≡◌, ◌≤◌, ℕ, List, Option};
ghost use Rattle.nas_cli.specs.Files.{AsksFor, ReadsFile};

use nas_base::{Memory, Octets1M};
use std::alloc::Global;

/// Why a file was not read.
#[derive(Clone, Copy, Debug, PartialEq, Eq)]
pub enum FileRefusal {
    /// The object failed, or there is no such file; its count of faults rose.
    Failed,
    /// The file has `size` octets, which is above the limit.
    TooLong { size: u64 },
    Memory,
}

impl From<Memory> for FileRefusal {
    ghost use Rattle.nas_cli.specs.declared.files.FileRefusal.TheVariants.{Memory as Wanting};

    ghost from_gives = { λ _ refusal. refusal ≡ Wanting };

    fn from(_: Memory) -> FileRefusal {
        FileRefusal::Memory
    }
}

/// Where files are read from, by their names.
pub trait Files {
    /// The octets of the file of each name, where the object tells them; a name that isn't there has none.
    ghost content: { Self → Option (List ℕ → Option (List ℕ)) };

    /// The names that it was asked for, in order, where it tells them.
    ghost asked: { Self → Option (List (List ℕ)) };

    /// How often the object has failed. It never falls.
    ghost fault_count: { Self → ℕ };

    /// The octets of a file.
    ///
    /// # Errors
    ///
    /// `Failed` only where the count of faults rose; `TooLong` exactly where the file is longer than `limit`; or `Memory`,
    /// and then the name isn't told as asked.
    fn read(&mut self, alloc: Global, name: &str, limit: u32) -> Result<Octets1M, FileRefusal>
        requires { limit ≤ 1048576 }
        ensures answer { ReadsFile (content self.old) (fault_count self.old) (fault_count self.new) name.now limit result }
        ensures content { content self.new ≡ content self.old }
        ensures asked { AsksFor (asked self.old) (asked self.new) name.now result };

    /// How often the object has failed. At the last value of its type it stays there.
    fn faults(&self) -> u64
        ensures { result ≡ fault_count self.now };
}
