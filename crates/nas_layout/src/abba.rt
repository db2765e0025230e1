//! What binds a key to the features that a network offers.
ghost use Rattle.std.specs.Prelude.{◌≡◌, ◌≤◌, length};
ghost use Rattle.nas_elements.specs.Reads.{Reads};
ghost use Rattle.nas_layout.specs.Abba.{abba_in};

use crate::{Coded, Readable, Spelled};
use arrayvec::ArrayVec;
use nas_elements::Wrong;
use std::marker::Model;

const MOST: usize = 255;

/// ABBA, the anti-bidding down between architectures parameter, 2 to 255 octets (TS 33.501 clause A.7.1, TS 24.501 clause
/// 9.11.3.10).
#[derive(Debug, Drop, PartialEq, Eq)]
pub struct Abba {
    pub items: ArrayVec<u8, 255>,
}

impl Model for Abba {
    ghost use Rattle.std.specs.Prelude.{ℕ, List, ◌≤◌, length};

    ghost Value = { List ℕ };

    ghost view = { λ a. a.items.items };

    ghost invariant = { λ a. (2 ≤ length a.items.items) × (length a.items.items ≤ 255) };

    ghost inverse = { λ octets. record { items = record { items = octets } } };
}

impl Abba {
    /// ABBA in the octets.
    ///
    /// # Errors
    ///
    /// `Wrong` exactly where there are fewer than 2 octets, or more than 255.
    #[tactic(auto, using(crate::proofs::AbbaLaws::wrong_abba))]
    pub fn read(octets: &[u8]) -> Result<Abba, Wrong>
        ensures { Reads abba_in octets.now result }
    {
        match Abba::from_slice(octets) {
            Some(abba) => Ok(abba),
            None => Err(Wrong {
                at: octets.len().min(MOST),
            }),
        }
    }

    /// ABBA of these octets, or None exactly where there are fewer than 2 or more than 255.
    pub fn from_slice(octets: &[u8]) -> Option<Abba>
        ensures { result ≡ abba_in octets.now }
    {
        if octets.len() < 2 {
            return None;
        }
        let mut items = ArrayVec::new();
        match items.try_extend_from_slice(octets) {
            Ok(()) => Some(Abba { items }),
            Err(_) => None,
        }
    }

    /// The octets in order.
    pub fn as_slice(&self) -> &[u8]
        ensures value { result.now ≡ self.now }
        ensures limit { length result.now ≤ 255 }
    {
        self.items.as_slice()
    }

    /// An equal value.
    pub fn copy(&self) -> Abba
        ensures { result ≡ self.now }
    {
        let _ = &self.items;
        Abba::from_slice(self.as_slice()).unwrap()
    }
}

impl Coded for Abba {
    ghost use Rattle.nas_layout.specs.Codings.{abba};

    ghost coding = { abba };

    ghost most = { 255 };

    fn octets(&self) -> Spelled<'_> {
        Spelled::Kept(self.as_slice())
    }
}

impl Readable for Abba {
    fn read_from(octets: &[u8]) -> Option<Abba> {
        Abba::from_slice(octets)
    }

    fn is_read_back(&self) {
        let _items = &self.items;
    }
}
