//! Lines and their answers.

use crate::{pool_times, smf_calls, ue_calls};
use probe_words::{Refusal, answered, words_of};
use std::alloc::{AllocError, Global};

/// The answer to a line.
///
/// # Errors
///
/// Where memory is wanting.
pub fn answer(alloc: Global, line: &[u8]) -> Result<String, AllocError> {
    match words_of(alloc, line) {
        Ok(words) => answered(alloc, called(alloc, words.as_slice())),
        Err(refusal) => answered(alloc, Err(refusal)),
    }
}

// The call of a line, carried out.
fn called(alloc: Global, words: &[&str]) -> Result<String, Refusal> {
    match ue_calls::answer(alloc, words) {
        Err(Refusal::Unreadable) => of_the_network(alloc, words),
        answer => answer,
    }
}

// A call of the SMF, or of its pools.
fn of_the_network(alloc: Global, words: &[&str]) -> Result<String, Refusal> {
    match smf_calls::answer(alloc, words) {
        Err(Refusal::Unreadable) => pool_times::answer(alloc, words),
        answer => answer,
    }
}
