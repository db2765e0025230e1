//! Octets, as their words have them.
ghost use Rattle.std.specs.Prelude.{◌≤◌, length, IfOk};

use crate::refusals::Refusal;
use hex::FromHexError;
use nas_base::{Octets, OctetsRefusal};
use std::alloc::Global;

/// As many octets as the value has.
pub fn exactly<const N: usize>(word: &str) -> Result<[u8; N], Refusal> {
    let mut octets = [0; N];
    match hex::decode_to_slice(word, &mut octets) {
        Ok(()) => Ok(octets),
        Err(_) => Err(Refusal::Unreadable),
    }
}

/// One octet.
pub fn octet(word: &str) -> Result<u8, Refusal> {
    let [octet] = exactly::<1>(word)?;
    Ok(octet)
}

/// Octets of any number.
pub fn octets(alloc: Global, word: &str) -> Result<Vec<u8>, Refusal> {
    match word {
        "-" => Ok(Vec::new(alloc)),
        "" => Err(Refusal::Unreadable),
        _ => decoded(alloc, word),
    }
}

fn decoded(alloc: Global, word: &str) -> Result<Vec<u8>, Refusal> {
    match hex::decode(alloc, word) {
        Ok(octets) => Ok(octets),
        Err(FromHexError::OutOfMemory) => Err(Refusal::Memory),
        Err(_) => Err(Refusal::Unreadable),
    }
}

/// A parameter of a key derivation: at most 65,535 octets.
pub fn parameter(alloc: Global, word: &str) -> Result<Vec<u8>, Refusal>
    ensures { IfOk result (λ octets. length octets.items ≤ 65535) }
{
    let octets = octets(alloc, word)?;
    if octets.len() > 65535 {
        return Err(Refusal::Unreadable);
    }
    Ok(octets)
}

/// Octets as a message of at most 4,100.
pub fn kept(alloc: Global, octets: &[u8]) -> Result<Octets, Refusal> {
    match Octets::copy(alloc, octets) {
        Ok(octets) => Ok(octets),
        Err(OctetsRefusal::TooMany { size: _ }) => Err(Refusal::Unreadable),
        Err(OctetsRefusal::Memory) => Err(Refusal::Memory),
    }
}
