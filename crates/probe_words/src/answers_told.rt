//! What is answered, as text.

use crate::refusals::Refusal;
use nas_base::{Full, Writer};
use std::alloc::{AllocError, Global};

/// A text that was made.
pub fn word(line: Result<String, AllocError>) -> Result<String, Refusal> {
    match line {
        Ok(text) => Ok(text),
        Err(_) => Err(Refusal::Memory),
    }
}

/// A text as it stands here.
pub fn literal(alloc: Global, text: &str) -> Result<String, Refusal> {
    word(String::from_str(alloc, text))
}

/// The word for what isn't there.
pub fn none(alloc: Global) -> Result<String, Refusal> {
    literal(alloc, "none")
}

/// The text of octets.
pub fn text(alloc: Global, octets: &[u8]) -> Result<String, Refusal> {
    if octets.is_empty() {
        return literal(alloc, "-");
    }
    word(hex::encode(alloc, octets))
}

/// The texts of several values, with a blank between.
pub fn texts(alloc: Global, values: &[&[u8]]) -> Result<String, Refusal> {
    let mut line = String::new(alloc);
    for value in values {
        if !line.is_empty() {
            push(&mut line, " ")?;
        }
        let word = text(alloc, value)?;
        push(&mut line, word.as_str())?;
    }
    Ok(line)
}

/// The text behind the line.
pub fn push(line: &mut String, text: &str) -> Result<(), Refusal> {
    match line.push_str(text) {
        Ok(()) => Ok(()),
        Err(_) => Err(Refusal::Memory),
    }
}

/// The text with a stroke for each line's end.
pub fn in_one_line(alloc: Global, lines: &[u8]) -> Result<String, Refusal> {
    let mut line = String::new(alloc);
    for byte in lines {
        if line.push(shown(*byte)).is_err() {
            return Err(Refusal::Memory);
        }
    }
    Ok(line)
}

fn shown(byte: u8) -> char {
    match byte {
        b'\n' => '|',
        _ => byte as char,
    }
}

/// The octets that a value was written as, or `full` where a writer has no room for them.
pub fn written(alloc: Global, written: Result<(), Full>, out: &Writer) -> Result<String, Refusal> {
    match written {
        Ok(()) => text(alloc, out.octets()),
        Err(_) => literal(alloc, "full"),
    }
}

/// The first and the last octet, so that nothing is left out.
pub fn sum_of(octets: &[u8]) -> u64 {
    match octets {
        [first, .., last] => *first as u64 + *last as u64,
        _ => 0,
    }
}

/// A sum.
pub fn sum_text(alloc: Global, sum: u64) -> Result<String, Refusal> {
    word(format!(in alloc; "{sum}"))
}
