//! The program over objects in memory: what it writes, and the status that it ends with.
use crate::program::{nas, nas_in_memory};
use crate::shelf::{FaultyFiles, MemoryFiles};
use crate::test_runs::{CONFIG, UNKNOWN, UNKNOWN_TRANSCRIPT, files, run_words};
use crate::words::Words;
use nas_base::{FaultySink, MemorySink};
use std::alloc::Global;
use std::process::Abort;
use std::test::Fail;

#[test]
fn words_of_no_form_read_no_file(rt: HostRuntime) -> Result<(), Fail> {
    let alloc = rt.alloc();
    let table = [
        ["", "", "", ""],
        ["frobnicate", "", "", ""],
        ["run", "config", "", ""],
        ["run", "config", "script", "more"],
        ["Run", "config", "script", ""],
        ["show", "7e005d2", "", ""],
        ["show", "7e004g", "", ""],
        ["show", "7e0043", "7e0043", ""],
        ["shows", "7e0043", "", ""],
        ["vectors", "config", "", ""],
    ];
    for row in &table {
        let mut words = Words::new(alloc);
        for word in row {
            if !word.is_empty() {
                words.push(alloc, word)?;
            }
        }
        let mut files = files(alloc, CONFIG.as_bytes(), UNKNOWN.as_bytes())?;
        let mut out = MemorySink::new(alloc);
        assert_eq!(rt; nas(alloc, &words, &mut files, &mut out).0, 2);
        assert_eq!(rt; out.octets(), b"nas: words\n".as_slice());
        assert!(rt; files.asked().is_empty());
    }
    Ok(())
}

// Shows the octets, and compares.
fn compare_shown<R: Abort + AllocGlobal>(
    rt: &R,
    hex: &str,
    status: u8,
    text: &str,
) -> Result<(), Fail> {
    let alloc = rt.alloc();
    let mut words = Words::new(alloc);
    words.push(alloc, "show")?;
    words.push(alloc, hex)?;
    let mut files = MemoryFiles::new(alloc);
    let mut out = MemorySink::new(alloc);
    assert_eq!(rt;
        nas_in_memory(alloc, &words, &mut files, &mut out).0,
        status
    );
    assert_eq!(rt; out.octets(), text.as_bytes());
    assert!(rt; files.asked().is_empty());
    Ok(())
}

#[test]
fn octets_are_shown_or_told(rt: HostRuntime) -> Result<(), Fail> {
    let table = [
        (
            "7e005d220002a020360102",
            0,
            "5gmm 5d\n  m 22\n  m 00\n  m 02a020\n  36 02\n",
        ),
        ("7E00440B", 0, "5gmm 44\n  m 0b\n"),
        ("7e0211223344057e0043", 0, "protected 2 mac 11223344 sn 5\n"),
        ("7e0041", 13, "nas: octets 3\n"),
        ("7e02", 13, "nas: octets 2\n"),
        ("7e007f", 13, "nas: octets 2\n"),
        (
            "2e0100cb7a000402000140",
            0,
            "5gsm cb psi 1 pti 0\n  7a 02000140\n",
        ),
        ("2e0101d324", 0, "5gsm d3 psi 1 pti 1\n  m 24\n"),
        ("2e0101", 13, "nas: octets 3\n"),
        ("2e010141", 13, "nas: octets 3\n"),
        ("2f0101d324", 13, "nas: octets 0\n"),
        ("", 2, "nas: words\n"),
    ];
    for (hex, status, text) in table {
        compare_shown(&rt, hex, status, text)?;
    }

    // At most 4,096 octets.
    let mut hex = String::from_str(rt.alloc(), "7e0064")?;
    for _ in 0..4093 {
        hex.push_str("00")?;
    }
    compare_shown(&rt, hex.as_str(), 0, "5gmm 64\n  m 00\n")?;
    hex.push_str("00")?;
    compare_shown(&rt, hex.as_str(), 2, "nas: words\n")
}

#[test]
fn refused_files_are_told(rt: HostRuntime) -> Result<(), Fail> {
    let alloc = rt.alloc();
    let words = run_words(alloc)?;
    for failing in [1u64, 2] {
        let shelf = files(alloc, CONFIG.as_bytes(), UNKNOWN.as_bytes())?;
        let mut files = FaultyFiles::new(shelf, vec![in alloc; failing]?);
        let mut out = MemorySink::new(alloc);
        assert_eq!(rt; nas(alloc, &words, &mut files, &mut out).0, 5);
        assert_eq!(rt; out.octets(), b"nas: file\n".as_slice());
        assert_eq!(rt; files.asked().len() as u64, failing);
    }

    // A name that isn't there is a failure too; where nothing fails it is an empty file.
    let mut faulty = FaultyFiles::new(MemoryFiles::new(alloc), Vec::new(alloc));
    let mut out = MemorySink::new(alloc);
    assert_eq!(rt; nas(alloc, &words, &mut faulty, &mut out).0, 5);
    let mut empty = MemoryFiles::new(alloc);
    let mut out = MemorySink::new(alloc);
    assert_eq!(rt; nas(alloc, &words, &mut empty, &mut out).0, 3);
    Ok(())
}

#[test]
fn an_output_that_fails_has_a_front_of_the_transcript(rt: HostRuntime) -> Result<(), Fail> {
    let alloc = rt.alloc();
    let words = run_words(alloc)?;
    for failing in [1u64, 2, 3, 4, 5] {
        let mut files = files(alloc, CONFIG.as_bytes(), UNKNOWN.as_bytes())?;
        let mut out = FaultySink::new(alloc, vec![in alloc; failing]?);
        assert_eq!(rt; nas(alloc, &words, &mut files, &mut out).0, 6);
        assert!(rt; UNKNOWN_TRANSCRIPT.as_bytes().starts_with(out.octets()));
        assert!(rt; out.octets().len() < UNKNOWN_TRANSCRIPT.len());
    }
    let mut files = files(alloc, CONFIG.as_bytes(), UNKNOWN.as_bytes())?;
    let mut out = FaultySink::new(alloc, vec![in alloc; 6u64]?);
    assert_eq!(rt; nas(alloc, &words, &mut files, &mut out).0, 0);
    assert_eq!(rt; out.octets(), UNKNOWN_TRANSCRIPT.as_bytes());
    Ok(())
}

// A script of so many lines `to-ue 1`, which do nothing.
fn deliveries(alloc: Global, count: u32) -> Result<Vec<u8>, Fail> {
    let mut script = Vec::new(alloc);
    for _ in 0..count {
        script.extend_from_slice(b"to-ue 1\n")?;
    }
    Ok(script)
}

// Runs a script, and compares the status and the end of what is written.
fn compare_end<R: Abort + AllocGlobal>(
    rt: &R,
    script: &[u8],
    status: u8,
    end: &[u8],
) -> Result<(), Fail> {
    let alloc = rt.alloc();
    let mut files = files(alloc, CONFIG.as_bytes(), script)?;
    let mut out = MemorySink::new(alloc);
    let words = run_words(alloc)?;
    assert_eq!(rt; nas(alloc, &words, &mut files, &mut out).0, status);
    assert!(rt; out.octets().ends_with(end));
    Ok(())
}

#[test]
fn limits_hold_at_their_edges(rt: HostRuntime) -> Result<(), Fail> {
    let alloc = rt.alloc();
    let feeds = vec![in alloc; b'\n'; 1_048_576]?;
    compare_end(&rt, &feeds, 0, b"end 0 events honest yes agree yes\n")?;
    let longer = vec![in alloc; b'\n'; 1_048_577]?;
    compare_end(&rt, &longer, 11, b"nas: too long 1048577\n")?;
    let most = deliveries(alloc, 65536)?;
    compare_end(&rt, &most, 0, b"end 65536 events honest yes agree yes\n")?;
    let more = deliveries(alloc, 65537)?;
    compare_end(&rt, &more, 11, b"nas: too long 65537\n")
}

const VECTORS: &str =
    "aes 69c4e0d86a7b0430d8cdb78070b4c55a\ncmac bb1d6929e95937287fa37d129b756746\ncmac16 070a16b46b4d4144f79bdd9dd04a287c\nopc cd63cb71954a9f4e48a5994e37a02baf\nf1 4a9ffac354dfafb3\nf2 a54211d5e3ba50bf\nf3 b40ba9a3c58b2a05bbf0d987b21bf8cb\nf4 f769bcd751044604127672711c6d3441\nf5 aa689c648370\nf1s 01cfaf9ec4e871e9\nf5s 451e8beca43b\nhmac b0344c61d8db38535ca8afceaf0bf12b881dc200c9833da726e9376c2e32cff7\n";

#[test]
fn the_published_vectors_are_printed(rt: HostRuntime) -> Result<(), Fail> {
    let alloc = rt.alloc();
    let mut words = Words::new(alloc);
    words.push(alloc, "vectors")?;
    let mut files = MemoryFiles::new(alloc);
    let mut out = MemorySink::new(alloc);
    assert_eq!(rt; nas_in_memory(alloc, &words, &mut files, &mut out).0, 0);
    assert_eq!(rt; out.octets(), VECTORS.as_bytes());
    assert!(rt; files.asked().is_empty());

    let mut out = FaultySink::new(alloc, vec![in alloc; 1u64]?);
    assert_eq!(rt; nas(alloc, &words, &mut files, &mut out).0, 6);
    Ok(())
}
