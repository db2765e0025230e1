//! Runs over objects in memory, for the tests: their files, and what they are to write.
use crate::shelf::MemoryFiles;
use crate::words::Words;
use std::alloc::Global;
use std::test::Fail;

/// The standard configuration, but for the subscriber, which another handset has.
pub const CONFIG: &str =
    "[network]\nplmn = \"00101\"\namf = \"020040\"\ntmsi = 1\nciphering = 2\ntac = \"000001\"\nt3512 = \"06\"\npool = \"10.45.0.2\"\npool_size = 250\nambr = \"0603e80603e8\"\n[[subscriber]]\nsupi = \"001010000000002\"\nk = \"465b5ce8b199b49faa5f0a2ee238a6bc\"\nopc = \"cd63cb71954a9f4e48a5994e37a02baf\"\nfield = \"b9b9\"\nsqn = \"ff9bb4d0b606\"\ndnns = [\"internet\"]\nslices = [\"01\"]\n[[handset]]\nsupi = \"001010000000001\"\nk = \"465b5ce8b199b49faa5f0a2ee238a6bc\"\nopc = \"cd63cb71954a9f4e48a5994e37a02baf\"\nsqn = \"ff9bb4d0b606\"\ncapability = \"a020\"\n";

/// The script of a handset that the network doesn't know.
pub const UNKNOWN: &str = "register\nto-net 1\nto-ue 1\n";

/// Its transcript.
pub const UNKNOWN_TRANSCRIPT: &str =
    "nas transcript 1\n1 register\n  up 1 7e004179000d0100f110f0ff000000000000102e02a020\n  ue Registering connected - -\n  net none - -\n  honest yes agree yes\n2 to-net 1\n  down 1 7e004403\n  ue Registering connected - -\n  net none - -\n  honest yes agree yes\n3 to-ue 1\n  ue Deregistered idle - -\n  net none - -\n  honest yes agree yes\nend 3 events honest yes agree yes\n";

/// The words `run config script`.
pub fn run_words(alloc: Global) -> Result<Words, Fail> {
    let mut words = Words::new(alloc);
    words.push(alloc, "run")?;
    words.push(alloc, "config")?;
    words.push(alloc, "script")?;
    Ok(words)
}

/// Both files under these names.
pub fn files(alloc: Global, config: &[u8], script: &[u8]) -> Result<MemoryFiles, Fail> {
    let mut files = MemoryFiles::new(alloc);
    files.put(alloc, "config", config)?;
    files.put(alloc, "script", script)?;
    Ok(files)
}
