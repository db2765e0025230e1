//! Lines and their answers.

use crate::{handset_calls, mobility_calls, network_calls, run_calls};
use probe_words::{Refusal, answered, words_of};
use std::alloc::{AllocError, Global};

/// The answer to a line.
///
/// # Errors
///
/// Where memory is wanting.
pub fn answer(alloc: Global, line: &[u8]) -> Result<String, AllocError> {
    match words_of(alloc, line) {
        Ok(words) => answered(alloc, called(alloc, words.as_slice())),
        Err(refusal) => answered(alloc, Err(refusal)),
    }
}

// The call of a line, carried out.
fn called(alloc: Global, words: &[&str]) -> Result<String, Refusal> {
    match handset_call(alloc, words) {
        Err(Refusal::Unreadable) => network_call(alloc, words),
        answer => answer,
    }
}

// Of a handset alone.
fn handset_call(alloc: Global, words: &[&str]) -> Result<String, Refusal> {
    match handset_calls::answer(alloc, words) {
        Err(Refusal::Unreadable) => mobility_calls::answer(alloc, words),
        answer => answer,
    }
}

// Of a network, and of both ends.
fn network_call(alloc: Global, words: &[&str]) -> Result<String, Refusal> {
    match run_calls::answer(alloc, words) {
        Err(Refusal::Unreadable) => network_calls::answer(alloc, words),
        answer => answer,
    }
}
