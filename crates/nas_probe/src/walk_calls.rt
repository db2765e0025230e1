//! The call of nas_base's walk over elements:
//!
//!     walk ROWS OCTETS IEI
//!
//! ROWS are the rows of a shape with commas between, each an identifier in hex and its form: `half`, a number of octets, `tlv` or
//! `tlve`, as in `2e:tlv,52:3`. The answer is the octets that are found under the identifier, or `none`.

use nas_base::{Form, Row, Shape, walk};
use probe_words::{Refusal, none, octet, octets, text};
use std::alloc::Global;

/// The answer to a call.
pub fn answer(alloc: Global, words: &[&str]) -> Result<String, Refusal> {
    match words {
        ["walk", rows, given, iei] => found(alloc, rows, &octets(alloc, given)?, octet(iei)?),
        _ => Err(Refusal::Unreadable),
    }
}

fn found(alloc: Global, rows: &str, given: &[u8], iei: u8) -> Result<String, Refusal> {
    let shape = shape(alloc, rows)?;
    match walk(given, &shape).get(iei) {
        Some(value) => text(alloc, value),
        None => none(alloc),
    }
}

fn shape(alloc: Global, rows: &str) -> Result<Shape, Refusal> {
    let mut items = Vec::new(alloc);
    for word in rows.split(',') {
        if items.push(row(word)?).is_err() {
            return Err(Refusal::Memory);
        }
    }
    Shape::from_slice(&items).ok_or(Refusal::Unreadable)
}

fn row(word: &str) -> Result<Row, Refusal> {
    match word.split_once(":") {
        Some((iei, form)) => row_of(octet(iei)?, form),
        None => Err(Refusal::Unreadable),
    }
}

fn row_of(iei: u8, form: &str) -> Result<Row, Refusal> {
    match form {
        "half" => half(iei),
        "tlv" => Ok(Row {
            iei,
            form: Form::Tlv,
        }),
        "tlve" => Ok(Row {
            iei,
            form: Form::Tlve,
        }),
        _ => fixed(iei, form),
    }
}

// An element in half an octet, which some identifiers name.
fn half(iei: u8) -> Result<Row, Refusal> {
    match iei {
        0x80 | 0x90 | 0xa0 | 0xd0 => Ok(Row {
            iei,
            form: Form::Half,
        }),
        _ => Err(Refusal::Unreadable),
    }
}

// An element without a length, of so many octets.
fn fixed(iei: u8, octets: &str) -> Result<Row, Refusal> {
    match octets.parse::<u8>() {
        Ok(number) if number > 0 => Ok(Row {
            iei,
            form: Form::Fixed(number),
        }),
        _ => Err(Refusal::Unreadable),
    }
}
