//! The calls of mm_messages, sm_messages and nas_show:
//!
//!     mm OCTETS
//!     sm OCTETS
//!     sessions OCTETS OCTETS
//!     show OCTETS
//!
//! The answer to `mm` and to `sm` is the octets that the message is written as, or `ignored AT`, `unknown N` or `mandatory PART AT`.
//! That to `sessions` is `equal` or `differ`, of a copy of the session that the first PDU SESSION ESTABLISHMENT ACCEPT brings and of
//! that of the second. That to `show` is the text with a stroke for each line's end, or `octets PLACE`. Numbers are decimal.

use crate::session_calls::compared;
use mm_messages::{MmRefusal, decode_mm, encode_mm};
use nas_base::Writer;
use nas_show::{ShowRefusal, show};
use probe_words::{Refusal, in_one_line, octets, word, written};
use sm_messages::{SmRefusal, decode_sm, encode_sm};
use std::alloc::Global;

/// The answer to a call.
pub fn answer(alloc: Global, words: &[&str]) -> Result<String, Refusal> {
    match words {
        ["mm", input] => message(alloc, input),
        ["sm", input] => session_message(alloc, input),
        ["sessions", first, second] => compared(alloc, first, second),
        ["show", input] => shown(alloc, input),
        _ => Err(Refusal::Unreadable),
    }
}

// A message, read and written again.
fn message(alloc: Global, input: &str) -> Result<String, Refusal> {
    let given = octets(alloc, input)?;
    match decode_mm(alloc, &given) {
        Ok(message) => {
            let mut out = Writer::new();
            let full = encode_mm(&message, &mut out);
            written(alloc, full, &out)
        }
        Err(MmRefusal::Ignored { at }) => ignored(alloc, at),
        Err(MmRefusal::UnknownType { n }) => unknown(alloc, n),
        Err(MmRefusal::Mandatory { part, at }) => mandatory(alloc, part, at),
        Err(MmRefusal::Memory) => Err(Refusal::Memory),
    }
}

// The same of a 5GSM message.
fn session_message(alloc: Global, input: &str) -> Result<String, Refusal> {
    let given = octets(alloc, input)?;
    match decode_sm(alloc, &given) {
        Ok(frame) => {
            let mut out = Writer::new();
            let full = encode_sm(&frame, &mut out);
            written(alloc, full, &out)
        }
        Err(SmRefusal::Ignored { at }) => ignored(alloc, at),
        Err(SmRefusal::UnknownType { n }) => unknown(alloc, n),
        Err(SmRefusal::Mandatory { part, at }) => mandatory(alloc, part, at),
        Err(SmRefusal::Memory) => Err(Refusal::Memory),
    }
}

fn ignored(alloc: Global, at: usize) -> Result<String, Refusal> {
    word(format!(in alloc; "ignored {at}"))
}

fn unknown(alloc: Global, number: u8) -> Result<String, Refusal> {
    word(format!(in alloc; "unknown {number}"))
}

fn mandatory(alloc: Global, part: u8, at: usize) -> Result<String, Refusal> {
    word(format!(in alloc; "mandatory {part} {at}"))
}

// Octets as text, in one line.
fn shown(alloc: Global, input: &str) -> Result<String, Refusal> {
    let given = octets(alloc, input)?;
    match show(alloc, &given) {
        Ok(text) => in_one_line(alloc, &text),
        Err(ShowRefusal::Octets { place }) => word(format!(in alloc; "octets {place}")),
        Err(ShowRefusal::Memory) => Err(Refusal::Memory),
    }
}
