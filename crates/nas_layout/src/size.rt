//! How many octets pieces have.
ghost use Rattle.std.specs.Prelude.{◌≡◌, ◌≤◌, true, length};
ghost use Rattle.nas_layout.specs.Pieces.{formed, is_room_under};
ghost use Rattle.nas_layout.specs.Sizes.{Counts};

use crate::{Frame, Pieces};
use nas_base::Form;
use std::marker::Model;

/// A sum of the octets of at most 16 pieces.
#[derive(Clone, Copy, Debug, PartialEq, Eq)]
pub struct Size {
    octets: usize,
    pieces: usize,
}

impl Model for Size {
    ghost use Rattle.nas_layout.specs.Sizes.{IsSize, Sum};

    ghost Value = { Sum };

    ghost view = { λ s. record { octets = s.octets; pieces = s.pieces } };

    ghost invariant = { λ s. IsSize s.octets s.pieces };

    ghost inverse = { λ s. record { octets = s.octets; pieces = s.pieces } };
}

/// There are more than 16 pieces; no message has so many.
#[derive(Clone, Copy, Debug, PartialEq, Eq)]
pub struct TooManyPieces;

impl Size {
    /// No piece.
    pub fn new() -> Size
        ensures { result ≡ record { octets = 0; pieces = 0 } }
    {
        Size {
            octets: 0,
            pieces: 0,
        }
    }

    /// The sum.
    pub fn octets(self) -> usize
        ensures value { result ≡ self.octets }
        ensures limit { result ≤ 65648 }
    {
        self.octets
    }

    // One more piece of so many octets.
    fn count(&mut self, octets: usize) -> Result<(), TooManyPieces>
        requires { octets ≤ 4103 }
        ensures { Counts octets self.old self.new result }
    {
        if self.pieces >= 16 {
            return Err(TooManyPieces);
        }
        self.octets += octets;
        self.pieces += 1;
        Ok(())
    }
}

impl Pieces for Size {
    ghost use Rattle.nas_layout.specs.Sizes.{counted, IsFull};

    type Refusal = TooManyPieces;

    ghost with_piece = { counted };

    ghost refuses = { IsFull };

    fn mandatory(&mut self, frame: Frame, octets: &[u8]) -> Result<(), TooManyPieces> {
        let length = match frame {
            Frame::V(_) => 0,
            Frame::Lv => 1,
            Frame::Lve => 2,
        };
        self.count(length + octets.len())
    }

    fn optional(
        &mut self,
        iei: u8,
        form: Form,
        octets: Option<&[u8]>,
    ) -> Result<(), TooManyPieces> {
        match octets {
            None => self.count(0),
            Some(octets) => self.count(size_of(iei, form, octets)),
        }
    }
}

// How many octets an element has that is there.
fn size_of(iei: u8, form: Form, octets: &[u8]) -> usize
    requires { is_room_under iei form (length octets.now) ≡ true }
    ensures value { result ≡ length (formed iei form octets.now) }
    ensures limit { result ≤ 4103 }
{
    match form {
        Form::Half => 1,
        Form::Fixed(_) => 1 + octets.len(),
        Form::Tlv => 2 + octets.len(),
        Form::Tlve => 3 + octets.len(),
    }
}
