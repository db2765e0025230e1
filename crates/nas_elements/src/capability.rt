//! What security a handset is capable of.
ghost use Rattle.std.specs.Prelude.{◌≡◌, ◌≤◌, ◌<◌, length};
ghost use Rattle.nas_base.specs.Writing.{Writes};
ghost use Rattle.nas_elements.specs.Capability.{capability_in, has_bit, has_ea, has_ia};
ghost use Rattle.nas_elements.specs.Reads.{Reads};

use crate::Wrong;
use arrayvec::ArrayVec;
use nas_base::{Full, Writer};
use std::marker::Model;

const MOST: usize = 8;

/// The UE security capability, 2 to 8 octets: the first has 5G-EA0 in bit 8 to 5G-EA7 in bit 1, the second 5G-IA0 to
/// 5G-IA7 (TS 24.501 clause 9.11.3.54).
#[derive(Drop)]
pub struct Capability {
    pub items: ArrayVec<u8, 8>,
}

impl Model for Capability {
    ghost use Rattle.std.specs.Prelude.{ℕ, List, ◌≤◌, length};

    ghost Value = { List ℕ };

    ghost view = { λ c. c.items.items };

    ghost invariant = { λ c. (2 ≤ length c.items.items) × (length c.items.items ≤ 8) };

    ghost inverse = { λ octets. record { items = record { items = octets } } };
}

impl Capability {
    /// The capability in the octets.
    ///
    /// # Errors
    ///
    /// `Wrong` exactly where there are fewer than 2 octets, or more than 8.
    #[tactic(auto, using(crate::proofs::Sized::wrong_number))]
    pub fn read(octets: &[u8]) -> Result<Capability, Wrong>
        ensures { Reads capability_in octets.now result }
    {
        match Capability::from_slice(octets) {
            Some(capability) => Ok(capability),
            None => Err(Wrong {
                at: octets.len().min(MOST),
            }),
        }
    }

    /// Writes its octets.
    ///
    /// # Errors
    ///
    /// `Full` exactly where they don't fit; nothing is then written.
    pub fn write(&self, out: &mut Writer) -> Result<(), Full>
        ensures { Writes self.now out.old out.new result }
    {
        out.put(self.as_slice())
    }

    /// The capability of these octets, or None exactly where there are fewer than 2 or more than 8.
    pub fn from_slice(octets: &[u8]) -> Option<Capability>
        ensures { result ≡ capability_in octets.now }
    {
        if octets.len() < 2 {
            return None;
        }
        let mut items = ArrayVec::new();
        match items.try_extend_from_slice(octets) {
            Ok(()) => Some(Capability { items }),
            Err(_) => None,
        }
    }

    /// The octets in order.
    pub fn as_slice(&self) -> &[u8]
        ensures value { result.now ≡ self.now }
        ensures limit { length result.now ≤ 8 }
    {
        self.items.as_slice()
    }

    /// Whether it has the ciphering algorithm 5G-EA of this number.
    pub fn has_ea(&self, number: u8) -> bool
        ensures { result ≡ has_ea number self.now }
    {
        number < 8 && has_bit(self.items[0], number)
    }

    /// Whether it has the integrity algorithm 5G-IA of this number.
    pub fn has_ia(&self, number: u8) -> bool
        ensures { result ≡ has_ia number self.now }
    {
        number < 8 && has_bit(self.items[1], number)
    }

    /// An equal value.
    pub fn copy(&self) -> Capability
        ensures value { result ≡ self.now }
        ensures limit { length result ≤ 8 }
    {
        let _ = &self.items;
        Capability::from_slice(self.as_slice()).unwrap()
    }
}

// Whether the bit of the algorithm of this number is set.
fn has_bit(octet: u8, number: u8) -> bool
    requires { number < 8 }
    ensures { result ≡ has_bit octet number }
{
    let weight = match number {
        0 => 128,
        1 => 64,
        2 => 32,
        3 => 16,
        4 => 8,
        5 => 4,
        6 => 2,
        _ => 1,
    };
    octet / weight % 2 == 1
}
