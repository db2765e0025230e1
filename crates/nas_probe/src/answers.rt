//! Lines and their answers.

use crate::{
    aes_calls, element_calls, frame_calls, key_calls, message_calls, milenage_calls, qos_calls,
    timer_calls, walk_calls,
};
use probe_words::{Refusal, answered, words_of};
use std::alloc::{AllocError, Global};

/// The answer to a line.
///
/// # Errors
///
/// Where memory is wanting.
pub fn answer(alloc: Global, line: &[u8]) -> Result<String, AllocError> {
    match words_of(alloc, line) {
        Ok(words) => answered(alloc, called(alloc, words.as_slice())),
        Err(refusal) => answered(alloc, Err(refusal)),
    }
}

// The call of a line, carried out.
fn called(alloc: Global, words: &[&str]) -> Result<String, Refusal> {
    match value_call(alloc, words) {
        Err(Refusal::Unreadable) => whole_call(alloc, words),
        answer => answer,
    }
}

fn whole_call(alloc: Global, words: &[&str]) -> Result<String, Refusal> {
    match message_call(alloc, words) {
        Err(Refusal::Unreadable) => key_call(alloc, words),
        answer => answer,
    }
}

// Of elements, timers and the walk.
fn value_call(alloc: Global, words: &[&str]) -> Result<String, Refusal> {
    match walk_calls::answer(alloc, words) {
        Err(Refusal::Unreadable) => (),
        answer => return answer,
    }
    match timer_calls::answer(alloc, words) {
        Err(Refusal::Unreadable) => element_calls::answer(alloc, words),
        answer => answer,
    }
}

// Of messages, QoS rules and frames.
fn message_call(alloc: Global, words: &[&str]) -> Result<String, Refusal> {
    match message_calls::answer(alloc, words) {
        Err(Refusal::Unreadable) => (),
        answer => return answer,
    }
    match qos_calls::answer(alloc, words) {
        Err(Refusal::Unreadable) => frame_calls::answer(alloc, words),
        answer => answer,
    }
}

// Of ciphers and keys.
fn key_call(alloc: Global, words: &[&str]) -> Result<String, Refusal> {
    match aes_calls::answer(alloc, words) {
        Err(Refusal::Unreadable) => (),
        answer => return answer,
    }
    match key_calls::answer(alloc, words) {
        Err(Refusal::Unreadable) => milenage_calls::answer(alloc, words),
        answer => answer,
    }
}
