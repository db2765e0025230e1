//! The names of data networks, as texts (TS 23.003 clause 9.1).
ghost use Rattle.std.specs.Prelude.{◌≡◌, map, IfOk};
ghost use Rattle.std.specs.List.{list_all};
ghost use Rattle.std.specs.Option.{option_and_then};
ghost use Rattle.nas_elements.specs.Dnns.{dnns_from};
ghost use Rattle.nas_script.specs.Document.{all_read};
ghost use Rattle.nas_script.specs.Names.{is_of_names, name_in, name_of, names_at};
ghost use Rattle.toml.specs.View.{view};

use crate::addresses::before_dot;
use crate::document::entries_of;
use arrayvec::ArrayVec;
use nas_base::Memory;
use nas_elements::{Dnn, Dnns};
use std::alloc::Global;
use toml::Value;

/// The 1 to 8 names of the array under a key.
///
/// # Errors
///
/// `Memory`.
#[tactic(auto, unfolding(crate::specs::Names::names_at))]
pub fn names_of(alloc: Global, key: &str, table: &Value) -> Result<Option<Dnns>, Memory>
    ensures { IfOk result (λ found. found ≡ names_at key.now (view table.now)) }
{
    match entries_of(key, table) {
        Some(entries) => read_names(alloc, entries),
        None => Ok(None),
    }
}

// The 1 to 8 names of these entries.
fn read_names(alloc: Global, entries: &[Value]) -> Result<Option<Dnns>, Memory>
    ensures { IfOk result (λ found. found ≡ option_and_then dnns_from (all_read name_of (map view entries.now))) }
{
    let mut items = Vec::new(alloc);
    for entry in entries {
        let Some(name) = name_of(entry) else {
            return Ok(None);
        };
        if items.push(name).is_err() {
            return Err(Memory);
        }
    }
    Ok(Dnns::from_items(items))
}

// The name of an entry.
fn name_of(entry: &Value) -> Option<Dnn>
    ensures { result ≡ name_of (view entry.now) }
{
    dnn_of(entry.as_str()?.as_bytes())
}

// The name in a text: labels of 1 to 63 letters, digits and `-`, with dots between, at most 99 octets.
fn dnn_of(text: &[u8]) -> Option<Dnn>
    ensures { result ≡ name_in text.now }
{
    if text.len() > 99 || !all_of_names(text) {
        return None;
    }
    let mut octets = ArrayVec::<u8, 100>::new();
    octets.push(before_dot(text) as u8);
    for at in 0..text.len() {
        if text[at] == b'.' {
            octets.push(before_dot(&text[at + 1..]) as u8);
        } else {
            octets.push(text[at]);
        }
    }
    Dnn::from_slice(octets.as_slice())
}

// Each octet can stand in a name.
fn all_of_names(text: &[u8]) -> bool
    ensures { result ≡ list_all is_of_names text.now }
{
    text.iter().all(|octet| is_of_names(*octet))
}

// A letter, a digit, `-` or a dot.
fn is_of_names(octet: u8) -> bool
    ensures { result ≡ is_of_names octet }
{
    octet.is_ascii_alphanumeric() || octet == b'-' || octet == b'.'
}
