//! The identity that a handset names itself by.
ghost use Rattle.std.specs.Prelude.{◌≡◌, ◌<◌, ◌≤◌, true, false, length, slice_index};
ghost use Rattle.nas_base.specs.Writing.{Writes};
ghost use Rattle.nas_elements.specs.Guti.{type_of_identity};
ghost use Rattle.nas_elements.specs.Identity.{ReadsIdentity, identity_octets};
ghost use Rattle.nas_elements.specs.Other.{is_kept};

use crate::other::is_kept_as_it_is;
use crate::suci::IMSI_SUCI;
use crate::{Guti, OtherIdentity, Stmsi, Suci};
use nas_base::{Full, Octets, OctetsRefusal, Writer};
use std::alloc::Global;

/// The 5GS mobile identity (TS 24.501 clause 9.11.3.4).
#[derive(Drop)]
pub enum Identity {
    /// A SUCI of an IMSI under the null scheme.
    Suci(Suci),
    /// A 5G-GUTI.
    Guti(Guti),
    /// A 5G-S-TMSI.
    Stmsi(Stmsi),
    /// Any other identity, as its octets: another scheme, another SUPI format, another type.
    Other(OtherIdentity),
}

/// Why octets were not read as an identity.
#[derive(Clone, Copy, Debug, PartialEq, Eq)]
pub enum IdentityRefusal {
    /// No identity has them; `at` is as in `Wrong`.
    Wrong { at: usize },
    /// There was no memory left to keep the octets.
    Memory,
}

// As many octets of an identity as are kept.
const MOST: usize = 4100;

impl Identity {
    /// The identity in the octets.
    ///
    /// # Errors
    ///
    /// `Wrong` exactly where no identity has these octets; or `Memory`, where an identity is to be kept as its octets.
    pub fn read(alloc: Global, octets: &[u8]) -> Result<Identity, IdentityRefusal>
        ensures { ReadsIdentity octets.now result }
    {
        match octets {
            [] => Err(IdentityRefusal::Wrong { at: 0 }),
            _ if is_kept_as_it_is(octets) => keep(alloc, octets),
            [IMSI_SUCI, ..] => read_suci(octets),
            [first, ..] if first % 8 == 2 => read_guti(octets),
            _ => read_stmsi(octets),
        }
    }

    /// The number of its octets: 1 to 4,100.
    pub fn size(&self) -> usize
        ensures value { result ≡ length (identity_octets self.now) }
        ensures limit { result ≤ 4100 }
    {
        match self {
            Identity::Suci(suci) => suci.size(),
            Identity::Guti(_) => 11,
            Identity::Stmsi(_) => 7,
            Identity::Other(other) => other.as_slice().len(),
        }
    }

    /// Writes its octets.
    ///
    /// # Errors
    ///
    /// `Full` exactly where they don't fit; nothing is then written.
    pub fn write(&self, out: &mut Writer) -> Result<(), Full>
        ensures { Writes (identity_octets self.now) out.old out.new result }
    {
        match self {
            Identity::Suci(suci) => suci.write(out),
            Identity::Guti(guti) => guti.write(out),
            Identity::Stmsi(stmsi) => stmsi.write(out),
            Identity::Other(other) => out.put(other.as_slice()),
        }
    }
}

// Keeps the octets as they are.
#[tactic(auto, unfolding(crate::specs::Identity::identity_in))]
fn keep(alloc: Global, octets: &[u8]) -> Result<Identity, IdentityRefusal>
    requires some { 0 < length octets.now }
    requires kept { is_kept octets.now ≡ true }
    ensures { ReadsIdentity octets.now result }
{
    match Octets::copy(alloc, octets) {
        Ok(octets) => Ok(Identity::Other(OtherIdentity { octets })),
        Err(OctetsRefusal::TooMany { size: _ }) => Err(IdentityRefusal::Wrong { at: MOST }),
        Err(OctetsRefusal::Memory) => Err(IdentityRefusal::Memory),
    }
}

// Another scheme could still have followed before the octet that tells the scheme, so nothing is wrong before it.
#[tactic(auto, unfolding(crate::specs::Identity::identity_in))]
fn read_suci(octets: &[u8]) -> Result<Identity, IdentityRefusal>
    requires first { slice_index octets.now 0 ≡ 0x01 }
    requires some { 0 < length octets.now }
    requires kept { is_kept octets.now ≡ false }
    ensures { ReadsIdentity octets.now result }
{
    match Suci::read(octets) {
        Ok(suci) => Ok(Identity::Suci(suci)),
        Err(wrong) => Err(IdentityRefusal::Wrong {
            at: wrong.at.max(octets.len().min(6)),
        }),
    }
}

#[tactic(auto, unfolding(crate::specs::Identity::identity_in))]
fn read_guti(octets: &[u8]) -> Result<Identity, IdentityRefusal>
    requires kind { type_of_identity octets.now ≡ 2 }
    requires some { 0 < length octets.now }
    ensures { ReadsIdentity octets.now result }
{
    match Guti::read(octets) {
        Ok(guti) => Ok(Identity::Guti(guti)),
        Err(wrong) => Err(IdentityRefusal::Wrong { at: wrong.at }),
    }
}

#[tactic(auto, unfolding(crate::specs::Identity::identity_in))]
fn read_stmsi(octets: &[u8]) -> Result<Identity, IdentityRefusal>
    requires kind { type_of_identity octets.now ≡ 4 }
    requires some { 0 < length octets.now }
    ensures { ReadsIdentity octets.now result }
{
    match Stmsi::read(octets) {
        Ok(stmsi) => Ok(Identity::Stmsi(stmsi)),
        Err(wrong) => Err(IdentityRefusal::Wrong { at: wrong.at }),
    }
}
