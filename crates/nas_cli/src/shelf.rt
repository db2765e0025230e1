//! Files in memory.
ghost use Rattle.std.specs.Prelude.{◌≡◌, ◌≤◌, [], ◌∷◌, ◌++◌, map, option_map, string_bytes, OnOk, OnErr};
ghost use Rattle.nas_cli.specs.Shelf.{file_named};

use crate::files::{FileRefusal, Files};
use nas_base::{Memory, Octets1M};
use std::alloc::Global;
use std::marker::Model;

/// A file with its name.
#[derive(Drop)]
pub struct NamedFile {
    pub name: String,
    pub octets: Vec<u8>,
}

/// Files in memory, which never fail. A file that isn't there is empty.
#[derive(Drop)]
pub struct MemoryFiles {
    files: Vec<NamedFile>,
    asked: Vec<String>,
}

impl Model for MemoryFiles {
    ghost use Rattle.std.specs.Prelude.{map, string_bytes};
    ghost use Rattle.nas_cli.specs.declared.shelf.NamedFile.{NamedFile};
    ghost use Rattle.nas_cli.specs.Shelf.{ShelfValue};

    ghost Value = { ShelfValue };

    ghost view = { λ s. record { files = map (λ (f : NamedFile). (string_bytes f.name, f.octets.items)) s.files.items; asked = map string_bytes s.asked.items } };
}

impl MemoryFiles {
    /// No file.
    pub fn new(alloc: Global) -> MemoryFiles
        ensures { result ≡ record { files = []; asked = [] } }
    {
        MemoryFiles {
            files: Vec::new(alloc),
            asked: Vec::new(alloc),
        }
    }

    /// One more file, of any length, behind those that are there.
    pub fn put(&mut self, alloc: Global, name: &str, octets: &[u8]) -> Result<(), Memory>
        ensures ok { OnOk result (self.new ≡ record self.old { files = self.old.files ++ (name.now, octets.now) ∷ [] }) }
        ensures err { OnErr result (self.new ≡ self.old) }
    {
        let Ok(name) = String::from_str(alloc, name) else {
            return Err(Memory);
        };
        let Ok(octets) = octets.to_vec(alloc) else {
            return Err(Memory);
        };
        match self.files.push(NamedFile { name, octets }) {
            Ok(()) => Ok(()),
            Err(_) => Err(Memory),
        }
    }

    /// The names that were asked for, in order.
    pub fn asked(&self) -> &[String]
        ensures { map string_bytes result.now ≡ self.now.asked }
    {
        self.asked.as_slice()
    }

    // One more name that was asked for.
    fn note(&mut self, alloc: Global, name: &str) -> Result<(), Memory>
        ensures ok { OnOk result (self.new ≡ record self.old { asked = self.old.asked ++ name.now ∷ [] }) }
        ensures err { OnErr result (self.new ≡ self.old) }
    {
        let Ok(name) = String::from_str(alloc, name) else {
            return Err(Memory);
        };
        match self.asked.push(name) {
            Ok(()) => Ok(()),
            Err(_) => Err(Memory),
        }
    }

    // The first file of this name.
    fn find(&self, name: &str) -> Option<&[u8]>
        ensures { option_map (λ octets. octets.now) result ≡ file_named name.now self.now.files }
    {
        for file in &self.files {
            if file.name.as_str() == name {
                return Some(file.octets.as_slice());
            }
        }
        None
    }
}

impl MemoryFiles {
    ghost use Rattle.std.specs.Prelude.{◌≡◌, ◌≤◌, Some};
    ghost use Rattle.nas_cli.specs.Files.{AsksFor, ReadsFile};
    ghost use Rattle.nas_cli.specs.Shelf.{octets_named};

    // The octets of the first file of this name, and none where there is no such file.
    fn octets_of(&self, name: &str) -> &[u8]
        ensures { result.now ≡ octets_named name.now self.now.files }
    {
        match self.find(name) {
            Some(octets) => octets,
            None => &[],
        }
    }

    // The octets of the first file of this name, which is noted as asked for.
    fn serve(&mut self, alloc: Global, name: &str, limit: u32) -> Result<Octets1M, FileRefusal>
        requires { limit ≤ 1048576 }
        ensures answer { ReadsFile (Some (λ n. Some (octets_named n self.old.files))) 0 0 name.now limit result }
        ensures files { self.new.files ≡ self.old.files }
        ensures asked { AsksFor (Some self.old.asked) (Some self.new.asked) name.now result }
    {
        let octets = self.octets_of(name);
        if octets.len() > limit as usize {
            let size = octets.len() as u64;
            self.note(alloc, name)?;
            return Err(FileRefusal::TooLong { size });
        }
        let Ok(items) = octets.to_vec(alloc) else {
            return Err(FileRefusal::Memory);
        };
        self.note(alloc, name)?;
        Ok(Octets1M { items })
    }
}

impl Files for MemoryFiles {
    ghost use Rattle.std.specs.Prelude.{Some};
    ghost use Rattle.nas_cli.specs.Shelf.{octets_named};

    ghost content = { λ s. Some (λ name. Some (octets_named name s.files)) };

    ghost asked = { λ s. Some s.asked };

    ghost fault_count = { λ _. 0 };

    fn read(&mut self, alloc: Global, name: &str, limit: u32) -> Result<Octets1M, FileRefusal> {
        self.serve(alloc, name, limit)
    }

    fn faults(&self) -> u64 {
        0
    }
}

/// Files in memory with a list of the calls that are to fail. A file that isn't there is a failure too.
#[derive(Drop)]
pub struct FaultyFiles {
    shelf: MemoryFiles,
    failing: Vec<u64>,
    calls: u64,
    faults: u64,
}

impl Model for FaultyFiles {
    ghost use Rattle.nas_cli.specs.Shelf.{TrialValue};

    ghost Value = { TrialValue };

    ghost view = { λ s. record { shelf = s.shelf; failing = s.failing.items; calls = s.calls; faults = s.faults } };
}

impl FaultyFiles {
    /// These files. Of the reads, counted from 1, those in `failing` are to fail.
    pub fn new(shelf: MemoryFiles, failing: Vec<u64>) -> FaultyFiles
        ensures { result ≡ record { shelf = shelf; failing = failing.items; calls = 0; faults = 0 } }
    {
        FaultyFiles {
            shelf,
            failing,
            calls: 0,
            faults: 0,
        }
    }

    /// The names that were asked for, in order.
    pub fn asked(&self) -> &[String]
        ensures { map string_bytes result.now ≡ self.now.shelf.asked }
    {
        self.shelf.asked()
    }
}

impl Files for FaultyFiles {
    ghost use Rattle.std.specs.Prelude.{◌≡◌, ◌+◌, ◌-◌, ◌^◌, ◌≤◌, ◌⊎◌, min, Some, None, Contains, IfErr, IsErr, IsErrOf};
    ghost use Rattle.nas_cli.specs.Files.{AsksFor, ReadsFile};
    ghost use Rattle.nas_cli.specs.Shelf.{file_named, told_by};

    ghost content = { λ s. told_by s.shelf.files };

    ghost asked = { λ s. Some s.shelf.asked };

    ghost fault_count = { λ s. s.faults };

    fn read(&mut self, alloc: Global, name: &str, limit: u32) -> Result<Octets1M, FileRefusal>
        requires { limit ≤ 1048576 }
        ensures answer { ReadsFile (told_by self.old.shelf.files) self.old.faults self.new.faults name.now limit result }
        ensures content { told_by self.new.shelf.files ≡ told_by self.old.shelf.files }
        ensures asked { AsksFor (Some self.old.shelf.asked) (Some self.new.shelf.asked) name.now result }

        // It fails only at the calls that are listed, or where there is no such file; and there it answers nothing else
        // but want of memory.
        ensures list { self.new.failing ≡ self.old.failing }
        ensures calls { self.new.calls ≡ min (self.old.calls + 1) (2 ^ 64 - 1) }
        ensures failed { IsErrOf result FileRefusal.Failed → Contains self.old.failing self.new.calls ⊎ (file_named name.now self.old.shelf.files ≡ None) }
        ensures listed { Contains self.old.failing self.new.calls → IfErr result (λ refusal. (refusal ≡ FileRefusal.Failed) ⊎ (refusal ≡ FileRefusal.Memory)) × IsErr result }
    {
        self.calls = self.calls.saturating_add(1);
        if self.failing.contains(&self.calls) || self.shelf.find(name).is_none() {
            self.shelf.note(alloc, name)?;
            self.faults = self.faults.saturating_add(1);
            return Err(FileRefusal::Failed);
        }
        self.shelf.serve(alloc, name, limit)
    }

    fn faults(&self) -> u64 {
        self.faults
    }
}
