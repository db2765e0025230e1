//! Values of half an octet.
ghost use Rattle.std.specs.Prelude.{◌≡◌};
ghost use Rattle.nas_elements.specs.Packed.{two_halves};
ghost use Rattle.nas_elements.specs.Reads.{Reads};
ghost use Rattle.nas_layout.specs.Half.{half_in};

use crate::{Coded, Readable, Spelled};
use nas_elements::Wrong;
use std::marker::Model;

/// A value of half an octet, 0 to 15 (TS 24.007 clause 11.2.1.1).
#[derive(Clone, Copy, Debug, PartialEq, Eq)]
pub struct Half(pub u8);

impl Model for Half {
    ghost use Rattle.std.specs.Prelude.{ℕ, ◌<◌};

    ghost Value = { ℕ };

    ghost view = { λ h. h.0 };

    ghost invariant = { λ h. h.0 < 16 };

    ghost inverse = { λ n. record { 0 = n } };
}

impl Half {
    /// The low half of the first octet, 0 where there is none. The high half is passed over.
    ///
    /// # Errors
    ///
    /// None: `Wrong` never comes.
    pub fn read(octets: &[u8]) -> Result<Half, Wrong>
        ensures { Reads half_in octets.now result }
    {
        match octets {
            [octet, ..] => Ok(Half(*octet % 16)),
            [] => Ok(Half(0)),
        }
    }
}

/// An octet of two halves.
pub fn two_halves(low: Half, high: Half) -> u8
    ensures { result ≡ two_halves low high }
{
    low.0 + 16 * high.0
}

impl Coded for Half {
    ghost use Rattle.nas_layout.specs.Codings.{half};

    ghost coding = { half };

    ghost most = { 1 };

    fn octets(&self) -> Spelled<'_> {
        Spelled::of_octets(&[self.0])
    }
}

impl Readable for Half {
    fn read_from(octets: &[u8]) -> Option<Half> {
        Half::read(octets).ok()
    }

    fn is_read_back(&self) {
        let _half = self.0;
    }
}
