//! Slices in hex digits (TS 24.501 clause 9.11.2.8).
ghost use Rattle.std.specs.Prelude.{◌≡◌, map};
ghost use Rattle.nas_script.specs.Slices.{hex_slice_in, nssai_of, slice_of, slices_at};
ghost use Rattle.toml.specs.View.{view};

use crate::document::entries_of;
use arrayvec::ArrayVec;
use nas_elements::{Nssai, Slice};
use toml::Value;

/// The 1 to 8 slices of the array under a key.
#[tactic(auto, unfolding(crate::specs::Slices::slices_at))]
pub fn slices_of(key: &str, table: &Value) -> Option<Nssai>
    ensures { result ≡ slices_at key.now (view table.now) }
{
    read_slices(entries_of(key, table)?)
}

// The 1 to 8 slices of these entries.
fn read_slices(entries: &[Value]) -> Option<Nssai>
    ensures { result ≡ nssai_of (map view entries.now) }
{
    if entries.len() > 8 {
        return None;
    }
    let mut items = ArrayVec::<Slice, 8>::new();
    for entry in entries {
        items.push(slice_of(entry)?);
    }
    Nssai::from_slice(items.as_slice())
}

// The slice of an entry.
fn slice_of(entry: &Value) -> Option<Slice>
    ensures { result ≡ slice_of (view entry.now) }
{
    hex_slice(entry.as_str()?.as_bytes())
}

// A slice of 2 hex digits, its SST, or of 8, its SST and SD.
fn hex_slice(text: &[u8]) -> Option<Slice>
    ensures { result ≡ hex_slice_in text.now }
{
    let mut octets = [0; 4];
    if text.len() != 2 && text.len() != 8 {
        return None;
    }
    let count = text.len() / 2;
    match hex::decode_to_slice(text, &mut octets[..count]) {
        Ok(()) => Slice::read(&octets[..count]).ok(),
        Err(_) => None,
    }
}
