//! The calls of aes_cmac:
//!
//!     encrypt_block KEY BLOCK
//!     ctr_apply KEY FIRST OCTETS
//!     cmac KEY OCTETS
//!     nia2 KEY COUNT DIR OCTETS
//!     nea2 KEY COUNT DIR OCTETS
//!
//! KEY, BLOCK and FIRST are 16 octets, COUNT is a decimal number below 2^24, and DIR is `up` or `down`.

use aes_cmac::{cmac, ctr_apply, encrypt_block, nea2, nia2};
use nas_base::{Count, Dir};
use probe_words::{Refusal, count, direction, exactly, octets, text};
use std::alloc::Global;

/// The answer to a call.
pub fn answer(alloc: Global, words: &[&str]) -> Result<String, Refusal> {
    match words {
        [call, key, input] => short_call(alloc, call, &exactly(key)?, input),
        ["ctr_apply", key, first, input] => stream(alloc, &exactly(key)?, &exactly(first)?, input),
        [call, key, number, dir, input] => {
            let key = exactly(key)?;
            message_call(alloc, call, &key, count(number)?, direction(dir)?, input)
        }
        _ => Err(Refusal::Unreadable),
    }
}

fn short_call(alloc: Global, call: &str, key: &[u8; 16], input: &str) -> Result<String, Refusal> {
    match call {
        "encrypt_block" => text(alloc, &encrypt_block(key, &exactly(input)?)),
        "cmac" => text(alloc, &cmac(key, &octets(alloc, input)?)),
        _ => Err(Refusal::Unreadable),
    }
}

fn stream(alloc: Global, key: &[u8; 16], first: &[u8; 16], input: &str) -> Result<String, Refusal> {
    let mut given = octets(alloc, input)?;
    ctr_apply(key, first, &mut given);
    text(alloc, &given)
}

// A call at a message with this count in this direction.
fn message_call(
    alloc: Global,
    call: &str,
    key: &[u8; 16],
    count: Count,
    dir: Dir,
    input: &str,
) -> Result<String, Refusal> {
    let mut given = octets(alloc, input)?;
    match call {
        "nia2" => text(alloc, &nia2(key, count, dir, &given)),
        "nea2" => {
            nea2(key, count, dir, &mut given);
            text(alloc, &given)
        }
        _ => Err(Refusal::Unreadable),
    }
}
