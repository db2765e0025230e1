//! A set of PDU sessions.
ghost use Rattle.std.specs.Prelude.{◌≡◌, ◌≤◌, ◌<◌, length};
ghost use Rattle.nas_base.specs.Writing.{Writes};
ghost use Rattle.nas_elements.specs.Reads.{Reads};
ghost use Rattle.nas_elements.specs.Status.{bits, both, has, no_session, number, status_in, status_octets, with_session, without_session};

use crate::Wrong;
use nas_base::{Full, Psi, Writer};
use std::marker::Model;

/// The PDU session status: a set of PDU session identities (TS 24.501 clause 9.11.3.44).
#[derive(Clone, Copy, PartialEq, Eq)]
pub struct Status {
    held: [bool; 15],
}

impl Model for Status {
    ghost use Rattle.std.specs.Prelude.{List, Bool, ◌≡◌, length};

    ghost Value = { List Bool };

    ghost view = { λ s. s.held };

    ghost invariant = { λ s. length s.held ≡ 15 };

    ghost inverse = { λ held. record { held = held } };
}

impl Status {
    /// The set in the octets. Octets behind the second are passed over, and so is bit 1 of the first.
    ///
    /// # Errors
    ///
    /// `Wrong` exactly where there are fewer than 2 octets.
    #[tactic(auto, using(crate::proofs::StatusLemmas::wrong_status))]
    pub fn read(octets: &[u8]) -> Result<Status, Wrong>
        ensures { Reads status_in octets.now result }
    {
        match octets {
            [first, second, ..] => {
                let mut held = [false; 15];
                unpack(*first / 2, &mut held[..7]);
                unpack(*second, &mut held[7..]);
                Ok(Status { held })
            }
            _ => Err(Wrong { at: octets.len() }),
        }
    }

    /// Writes its two octets.
    ///
    /// # Errors
    ///
    /// `Full` exactly where they don't fit; nothing is then written.
    pub fn write(&self, out: &mut Writer) -> Result<(), Full>
        ensures { Writes (status_octets self.now) out.old out.new result }
    {
        out.put(&self.octets())
    }

    /// Its two octets.
    #[tactic(auto, using(crate::proofs::StatusLemmas::seven_bits))]
    pub fn octets(&self) -> [u8; 2]
        ensures { result ≡ status_octets self.now }
    {
        let (first, second) = self.held.split_at(7);
        [2 * pack(first), pack(second)]
    }

    /// The empty set.
    pub fn empty() -> Status
        ensures { result ≡ no_session }
    {
        Status { held: [false; 15] }
    }

    /// Whether the session is in the set.
    pub fn has(&self, psi: Psi) -> bool
        ensures { result ≡ has psi self.now }
    {
        self.held[usize::from(psi.0) - 1]
    }

    /// The sessions that are in both sets.
    pub fn both(&self, other: &Status) -> Status
        ensures { result ≡ both self.now other.now }
    {
        let mut held = [false; 15];
        for (index, place) in held.iter_mut().enumerate() {
            *place = self.held[index] & other.held[index];
        }
        Status { held }
    }

    /// Takes the session into the set.
    pub fn insert(&mut self, psi: Psi)
        ensures { self.new ≡ with_session psi self.old }
    {
        self.held[usize::from(psi.0) - 1] = true;
    }

    /// Takes the session out of the set.
    pub fn remove(&mut self, psi: Psi)
        ensures { self.new ≡ without_session psi self.old }
    {
        self.held[usize::from(psi.0) - 1] = false;
    }
}

// Fills the places with the lowest bits of the octet, from bit 1 on.
#[tactic(auto, using(crate::proofs::StatusLemmas::unpack_step))]
fn unpack(octet: u8, places: &mut [bool])
    ensures { places.new ≡ bits (length places.old) octet }
{
    let mut left = octet;
    for place in places.iter_mut() {
        *place = left % 2 == 1;
        left /= 2;
    }
}

// The octet that has these bits, from bit 1 on.
#[tactic(auto, using(crate::proofs::StatusLemmas::seven_bits))]
fn pack(places: &[bool]) -> u8
    requires { length places.now ≤ 8 }
    ensures { result ≡ number places.now }
{
    match places {
        [place, higher @ ..] => u8::from(*place) + 2 * pack(higher),
        [] => 0,
    }
}
