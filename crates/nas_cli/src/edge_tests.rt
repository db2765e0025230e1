//! The adapters over a reader and a writer that take few octets at a time and fail in between.
use crate::disk::{read_open, read_whole};
use crate::files::FileRefusal;
use crate::output::Output;
use crate::program::nas;
use crate::shelf::MemoryFiles;
use crate::words::Words;
use nas_base::{Sink, WriteRefusal};
use std::alloc::Global;
use std::io::{self, ErrorKind, Read, Write};
use std::process::Abort;
use std::test::Fail;

// The octets that one call takes at most.
const PIECE: usize = 3;

// Gives at most three octets a call. The call of the number `failing`, from 1, fails.
#[derive(Drop)]
struct SlowReader<'a> {
    rest: &'a [u8],
    calls: u64,
    failing: u64,
    kind: ErrorKind,
}

impl Read for SlowReader<'_> {
    ghost use Rattle.std.specs.Prelude.{Some};

    ghost remaining = { λ s. Some s.rest.now };

    fn read(&mut self, buf: &mut [u8]) -> io::Result<usize> {
        self.calls = self.calls.saturating_add(1);
        if self.calls == self.failing {
            return Err(io::Error::from(self.kind));
        }
        let room = buf.len().min(PIECE);
        self.rest.read(&mut buf[..room])
    }
}

// Takes at most three octets a call. The call of the number `failing`, from 1, fails, or takes nothing where it has no
// kind to fail by.
#[derive(Drop)]
struct SlowWriter {
    octets: Vec<u8>,
    calls: u64,
    failing: u64,
    kind: Option<ErrorKind>,
}

impl Write for SlowWriter {
    ghost use Rattle.std.specs.Prelude.{Some};

    ghost contents = { λ s. Some s.octets.items };

    fn write(&mut self, buf: &[u8]) -> io::Result<usize> {
        self.calls = self.calls.saturating_add(1);
        if self.calls == self.failing {
            return match self.kind {
                Some(kind) => Err(io::Error::from(kind)),
                None => Ok(0),
            };
        }
        let room = buf.len().min(PIECE);
        self.octets.write(&buf[..room])
    }

    fn flush(&mut self) -> io::Result<()> {
        Ok(())
    }
}

// A reader that fails at no call, for there is none of the number 0.
fn reader(octets: &[u8]) -> SlowReader<'_> {
    SlowReader {
        rest: octets,
        calls: 0,
        failing: 0,
        kind: ErrorKind::Other,
    }
}

const TEN: &[u8] = b"0123456789";

#[test]
fn a_file_is_read_whole_or_refused(rt: HostRuntime) -> Result<(), Fail> {
    let alloc = rt.alloc();
    for limit in [10, 11, 1_048_576] {
        let mut file = reader(TEN);
        match read_whole(alloc, &mut file, limit) {
            Ok(octets) => assert_eq!(rt; octets.as_slice(), TEN),
            Err(_) => assert!(rt; false, "within the limit"),
        }
        assert!(rt; file.rest.is_empty());
    }
    // Behind a limit at most one more piece is read.
    for (limit, size, left) in [(9, 10, b"".as_slice()), (5, 6, b"6789"), (0, 3, b"3456789")] {
        let mut file = reader(TEN);
        assert!(rt;
            is_refused(
                read_whole(alloc, &mut file, limit),
                FileRefusal::TooLong { size }
            )
        );
        assert_eq!(rt; file.rest, left);
    }
    for (kind, refusal) in [
        (ErrorKind::Other, FileRefusal::Failed),
        (ErrorKind::NotFound, FileRefusal::Failed),
        (ErrorKind::OutOfMemory, FileRefusal::Memory),
    ] {
        for failing in [1, 3, 5] {
            let mut file = SlowReader {
                rest: TEN,
                calls: 0,
                failing,
                kind,
            };
            assert!(rt; is_refused(read_whole(alloc, &mut file, 10), refusal));
        }
    }
    Ok(())
}

#[test]
fn a_length_that_is_told_only_refuses(rt: HostRuntime) -> Result<(), Fail> {
    let alloc = rt.alloc();
    let mut file = reader(TEN);
    let refusal = FileRefusal::TooLong { size: 11 };
    assert!(rt; is_refused(read_open(alloc, &mut file, Some(11), 10), refusal));
    assert_eq!(rt; file.calls, 0);

    // One that is less or not told changes nothing of what is read.
    for told in [Some(0), Some(3), Some(10), None] {
        let mut file = reader(TEN);
        match read_open(alloc, &mut file, told, 10) {
            Ok(octets) => assert_eq!(rt; octets.as_slice(), TEN),
            Err(_) => assert!(rt; false, "within the limit"),
        }
    }
    Ok(())
}

fn is_refused<T: Drop>(answer: Result<T, FileRefusal>, wanted: FileRefusal) -> bool {
    match answer {
        Ok(_) => false,
        Err(refusal) => refusal == wanted,
    }
}

const LINE: &[u8] = b"nas: words\n";

// Writes the line, and compares what was taken.
fn write_line(
    rt: &impl Abort,
    alloc: Global,
    failing: u64,
    kind: Option<ErrorKind>,
    answer: Result<(), WriteRefusal>,
    faults: u64,
    taken: &[u8],
) -> Result<(), Fail> {
    let mut writer = SlowWriter {
        octets: Vec::new(alloc),
        calls: 0,
        failing,
        kind,
    };
    let mut out = Output::new(&mut writer);
    assert!(rt; out.write(alloc, LINE) == answer);
    assert_eq!(rt; out.faults(), faults);
    assert_eq!(rt; writer.octets.as_slice(), taken);
    Ok(())
}

#[test]
fn an_output_takes_all_or_a_front(rt: HostRuntime) -> Result<(), Fail> {
    let alloc = rt.alloc();
    let failed = Err(WriteRefusal::Failed);
    let other = Some(ErrorKind::Other);
    write_line(&rt, alloc, 0, None, Ok(()), 0, LINE)?;
    write_line(&rt, alloc, 5, other, Ok(()), 0, LINE)?;
    write_line(&rt, alloc, 1, other, failed, 1, b"")?;
    write_line(&rt, alloc, 3, other, failed, 1, b"nas: w")?;
    write_line(&rt, alloc, 4, None, failed, 1, b"nas: word")?;
    let wanting = Some(ErrorKind::OutOfMemory);
    write_line(&rt, alloc, 2, wanting, Err(WriteRefusal::Memory), 0, b"nas")
}

#[test]
fn the_program_ends_with_the_fault_of_its_output(rt: HostRuntime) -> Result<(), Fail> {
    let alloc = rt.alloc();
    let mut words = Words::new(alloc);
    words.push(alloc, "no form")?;
    for (failing, kind, status, text) in [
        (0, None, 2, LINE),
        (2, Some(ErrorKind::Other), 6, b"nas"),
        (2, None, 6, b"nas"),
        (2, Some(ErrorKind::OutOfMemory), 8, b"nas"),
    ] {
        let mut writer = SlowWriter {
            octets: Vec::new(alloc),
            calls: 0,
            failing,
            kind,
        };
        let mut files = MemoryFiles::new(alloc);
        let mut out = Output::new(&mut writer);
        assert_eq!(rt; nas(alloc, &words, &mut files, &mut out).0, status);
        assert_eq!(rt; writer.octets.as_slice(), text);
    }
    Ok(())
}
