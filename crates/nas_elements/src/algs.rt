//! The algorithms that protect messages.
ghost use Rattle.std.specs.Prelude.{◌≡◌};
ghost use Rattle.nas_base.specs.Writing.{Writes};
ghost use Rattle.nas_elements.specs.Algs.{algs_in, algs_octets};
ghost use Rattle.nas_elements.specs.Reads.{Reads};

use crate::Wrong;
use nas_base::{Full, Writer};
use std::marker::Model;

/// The NAS security algorithms: that of ciphering, 5G-EA, and that of integrity, 5G-IA, each by its number, 0 to 15
/// (TS 24.501 clause 9.11.3.34).
#[derive(Clone, Copy, PartialEq, Eq)]
pub struct Algs {
    pub nea: u8,
    pub nia: u8,
}

impl Model for Algs {
    ghost use Rattle.std.specs.Prelude.{◌<◌};
    ghost use Rattle.nas_elements.specs.Algs.{Algorithms};

    ghost Value = { Algorithms };

    ghost view = { λ a. record { nea = a.nea; nia = a.nia } };

    ghost invariant = { λ a. (a.nea < 16) × (a.nia < 16) };

    ghost inverse = { λ a. record { nea = a.nea; nia = a.nia } };
}

impl Algs {
    /// The algorithms in the octet.
    ///
    /// # Errors
    ///
    /// `Wrong` exactly where there is not one octet.
    #[tactic(auto, using(crate::proofs::OneOctet::wrong_algs))]
    pub fn read(octets: &[u8]) -> Result<Algs, Wrong>
        ensures { Reads algs_in octets.now result }
    {
        match octets {
            [octet] => Ok(Algs {
                nea: *octet / 16,
                nia: *octet % 16,
            }),
            _ => Err(Wrong {
                at: octets.len().min(1),
            }),
        }
    }

    /// Writes its octet.
    ///
    /// # Errors
    ///
    /// `Full` exactly where it doesn't fit; nothing is then written.
    pub fn write(&self, out: &mut Writer) -> Result<(), Full>
        ensures { Writes (algs_octets self.now) out.old out.new result }
    {
        out.put(&self.octets())
    }

    /// Its octet.
    pub fn octets(&self) -> [u8; 1]
        ensures { result ≡ algs_octets self.now }
    {
        [16 * self.nea + self.nia]
    }
}
