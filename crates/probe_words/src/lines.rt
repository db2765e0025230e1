//! Lines, their words, and what is written for each.

use crate::refusals::Refusal;
use std::alloc::{AllocError, Global};

/// The words of a line, with a blank between two.
///
/// # Errors
///
/// Where the line isn't text, and where memory is wanting.
pub fn words_of<'a>(alloc: Global, line: &'a [u8]) -> Result<Vec<&'a str>, Refusal> {
    let Ok(text) = str::from_utf8(line) else {
        return Err(Refusal::Unreadable);
    };
    match text.split(' ').collect::<Vec<&str>>(alloc) {
        Ok(words) => Ok(words),
        Err(_) => Err(Refusal::Memory),
    }
}

/// What is written for a line: its answer, or `?` where it can't be read.
///
/// # Errors
///
/// Where memory is wanting.
pub fn answered(alloc: Global, answer: Result<String, Refusal>) -> Result<String, AllocError> {
    match answer {
        Ok(text) => Ok(text),
        Err(Refusal::Unreadable) => String::from_str(alloc, "?"),
        Err(Refusal::Memory) => Err(AllocError),
    }
}
