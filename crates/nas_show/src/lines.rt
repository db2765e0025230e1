//! The lines of a message, which is told piece by piece.
ghost use Rattle.std.specs.Prelude.{◌≡◌, ◌++◌, length, take, true, IfOk, OnOk};
ghost use Rattle.nas_layout.specs.Pieces.{framed, is_room_in};
ghost use Rattle.nas_show.specs.Lines.{element_text, half_text, part_text, text_by_form};

use byteorder::{BigEndian, ByteOrder};
use nas_base::{Form, Memory};
use nas_layout::{Frame, Pieces};
use std::alloc::Global;
use std::marker::Model;

/// A text that grows by the line of each piece that it is told.
#[derive(Drop)]
pub struct Lines {
    alloc: Global,
    text: Vec<u8>,
}

impl Model for Lines {
    ghost use Rattle.std.specs.Prelude.{ℕ, List};

    ghost Value = { List ℕ };

    ghost view = { λ l. l.text.items };
}

impl Lines {
    /// Lines behind this text.
    pub fn new(alloc: Global, text: Vec<u8>) -> Lines
        ensures { result ≡ text.items }
    {
        Lines { alloc, text }
    }

    /// The text with the lines.
    pub fn into_text(self) -> Vec<u8>
        ensures { result.items ≡ self }
    {
        self.text
    }
}

impl Pieces for Lines {
    ghost use Rattle.std.specs.Prelude.{ℕ, List};
    ghost use Rattle.nas_layout.specs.Pieces.{Piece};
    ghost use Rattle.nas_show.specs.Lines.{with_line};

    type Refusal = Memory;

    ghost with_piece = { with_line };

    ghost refuses = { λ _ _. Unit {0} };

    fn mandatory(&mut self, frame: Frame, octets: &[u8]) -> Result<(), Memory> {
        let part = framed(self.alloc, frame, octets)?;
        append_part(self.alloc, &mut self.text, part.as_slice())
    }

    fn optional(&mut self, iei: u8, form: Form, octets: Option<&[u8]>) -> Result<(), Memory> {
        match octets {
            None => Ok(()),
            Some(octets) => append_by_form(self.alloc, &mut self.text, iei, form, octets),
        }
    }
}

/// Appends octets to a text.
pub fn append(text: &mut Vec<u8>, octets: &[u8]) -> Result<(), Memory>
    ensures { OnOk result (text.new.items ≡ text.old.items ++ octets.now) }
{
    match text.extend_from_slice(octets) {
        Ok(()) => Ok(()),
        Err(_) => Err(Memory),
    }
}

// A part with its length.
fn framed(alloc: Global, frame: Frame, octets: &[u8]) -> Result<Vec<u8>, Memory>
    requires { is_room_in frame (length octets.now) ≡ true }
    ensures { IfOk result (λ part. part.items ≡ framed frame octets.now) }
{
    let mut part = Vec::new(alloc);
    match frame {
        Frame::V(_) => {}
        Frame::Lv => append(&mut part, &[octets.len() as u8])?,
        Frame::Lve => {
            let mut size = [0; 2];
            BigEndian::write_u16(&mut size, octets.len() as u16);
            append(&mut part, &size)?;
        }
    }
    append(&mut part, octets)?;
    Ok(part)
}

// Appends the line of a part.
#[tactic(auto, unfolding(crate::specs::Lines::part_text))]
fn append_part(alloc: Global, text: &mut Vec<u8>, octets: &[u8]) -> Result<(), Memory>
    ensures { OnOk result (text.new.items ≡ text.old.items ++ part_text octets.now) }
{
    let Ok(hex) = hex::encode(alloc, octets) else {
        return Err(Memory);
    };
    let Ok(line) = format!(in alloc; "  m {hex}\n") else {
        return Err(Memory);
    };
    append(text, line.as_bytes())
}

// Appends the line of an element that is there.
fn append_by_form(
    alloc: Global,
    text: &mut Vec<u8>,
    iei: u8,
    form: Form,
    octets: &[u8],
) -> Result<(), Memory>
    ensures { OnOk result (text.new.items ≡ text.old.items ++ text_by_form iei form octets.now) }
{
    match form {
        Form::Half => append_half(alloc, text, iei, octets),
        _ => append_element(alloc, text, iei, octets),
    }
}

// Appends the line of an element with its identifier.
#[tactic(auto, unfolding(crate::specs::Lines::element_text))]
fn append_element(alloc: Global, text: &mut Vec<u8>, iei: u8, octets: &[u8]) -> Result<(), Memory>
    ensures { OnOk result (text.new.items ≡ text.old.items ++ element_text iei octets.now) }
{
    let Ok(label) = hex::encode(alloc, [iei]) else {
        return Err(Memory);
    };
    let Ok(hex) = hex::encode(alloc, octets) else {
        return Err(Memory);
    };
    let Ok(line) = format!(in alloc; "  {label} {hex}\n") else {
        return Err(Memory);
    };
    append(text, line.as_bytes())
}

// Appends the line of an element of one octet.
#[tactic(auto, unfolding(crate::specs::Lines::half_text))]
fn append_half(alloc: Global, text: &mut Vec<u8>, iei: u8, octets: &[u8]) -> Result<(), Memory>
    ensures { OnOk result (text.new.items ≡ text.old.items ++ half_text iei octets.now) }
{
    let half = octets.first().copied().unwrap_or(0) % 16;
    let Ok(label) = hex::encode(alloc, [iei]) else {
        return Err(Memory);
    };
    let Ok(hex) = hex::encode(alloc, [half]) else {
        return Err(Memory);
    };
    append(text, b"  ")?;
    append(text, first_of(label.as_bytes()))?;
    append(text, b" ")?;
    append(text, hex.as_bytes())?;
    append(text, b"\n")
}

// The first octet alone, where there is one.
fn first_of(octets: &[u8]) -> &[u8]
    ensures { result.now ≡ take 1 octets.now }
{
    match octets.get(..1) {
        Some(first) => first,
        None => &[],
    }
}
