//! Octets as text.
ghost use Rattle.std.specs.Prelude.{◌≡◌, ◌≤◌, IfOk, length};
ghost use Rattle.mm_messages.specs.Messages.{mm_in};
ghost use Rattle.nas_show.specs.Shown.{Shows, frame_text, message_head, message_text, plain, shown};

use crate::lines::{Lines, append};
use crate::sessions::show_session;
use mm_messages::{Mm, MmRefusal, decode_mm, kind_of, tell};
use nas_base::Memory;
use std::alloc::Global;

/// Why octets are not shown.
#[derive(Clone, Copy, Debug, PartialEq, Eq)]
pub enum ShowRefusal {
    /// They are neither a 5GSM message, nor a plain 5GMM message, nor a protected one, which shows at the place `place`, counted
    /// from 0.
    Octets { place: usize },
    /// There was no memory left.
    Memory,
}

/// The octets as text: a 5GSM message or a plain 5GMM message with a line for each part and each element, or the head of a
/// protected one.
///
/// # Errors
///
/// `Octets` exactly where they are none of these; or `Memory`.
#[tactic(auto, unfolding(crate::specs::Shown::shown))]
pub fn show(alloc: Global, octets: &[u8]) -> Result<Vec<u8>, ShowRefusal>
    ensures { Shows (λ text. text.items) result (shown octets.now) }
{
    if !octets.is_empty() && octets[0] == 0x2e {
        return show_session(alloc, octets);
    }
    if octets.is_empty() || octets[0] != 0x7e {
        return Err(ShowRefusal::Octets { place: 0 });
    }
    let header = if octets.len() > 1 { octets[1] % 16 } else { 0 };
    if header > 4 {
        return Err(ShowRefusal::Octets { place: 1 });
    }
    if header == 0 {
        return show_plain(alloc, octets);
    }
    if octets.len() < 8 {
        return Err(ShowRefusal::Octets {
            place: octets.len(),
        });
    }
    match frame(alloc, octets) {
        Ok(text) => Ok(text),
        Err(Memory) => Err(ShowRefusal::Memory),
    }
}

// A plain message.
fn show_plain(alloc: Global, octets: &[u8]) -> Result<Vec<u8>, ShowRefusal>
    ensures { Shows (λ text. text.items) result (plain (mm_in octets.now)) }
{
    match decode_mm(alloc, octets) {
        Ok(message) => match message_text_of(alloc, &message) {
            Ok(text) => Ok(text),
            Err(Memory) => Err(ShowRefusal::Memory),
        },
        Err(MmRefusal::Ignored { at }) => Err(ShowRefusal::Octets { place: at }),
        Err(MmRefusal::UnknownType { n: _ }) => Err(ShowRefusal::Octets { place: 2 }),
        Err(MmRefusal::Mandatory { part: _, at }) => Err(ShowRefusal::Octets { place: at }),
        Err(MmRefusal::Memory) => Err(ShowRefusal::Memory),
    }
}

// Its type, and its lines.
#[tactic(auto, using(crate::proofs::LinesTold::lines_told), unfolding(crate::specs::Shown::message_text))]
fn message_text_of(alloc: Global, message: &Mm) -> Result<Vec<u8>, Memory>
    ensures { IfOk result (λ text. text.items ≡ message_text message.now) }
{
    let mut lines = Lines::new(alloc, message_head(alloc, kind_of(message).code())?);
    tell(message, &mut lines)?;
    Ok(lines.into_text())
}

// The line of its type.
#[tactic(auto, unfolding(crate::specs::Shown::message_head))]
fn message_head(alloc: Global, kind: u8) -> Result<Vec<u8>, Memory>
    ensures { IfOk result (λ text. text.items ≡ message_head kind) }
{
    let Ok(code) = hex::encode(alloc, [kind]) else {
        return Err(Memory);
    };
    let Ok(line) = format!(in alloc; "5gmm {code}\n") else {
        return Err(Memory);
    };
    let mut text = Vec::new(alloc);
    append(&mut text, line.as_bytes())?;
    Ok(text)
}

// What a frame tells without its keys.
#[tactic(auto, unfolding(crate::specs::Shown::frame_text))]
fn frame(alloc: Global, octets: &[u8]) -> Result<Vec<u8>, Memory>
    requires { 8 ≤ length octets.now }
    ensures { IfOk result (λ text. text.items ≡ frame_text octets.now) }
{
    let header = octets[1] % 16;
    let number = octets[6];
    let Ok(mac) = hex::encode(alloc, &octets[2..6]) else {
        return Err(Memory);
    };
    let Ok(line) = format!(in alloc; "protected {header} mac {mac} sn {number}\n") else {
        return Err(Memory);
    };
    let mut text = Vec::new(alloc);
    append(&mut text, line.as_bytes())?;
    Ok(text)
}
