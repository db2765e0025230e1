//! The temporary identities: 5G-GUTI and 5G-S-TMSI.
ghost use Rattle.std.specs.Prelude.{◌≡◌};
ghost use Rattle.nas_base.specs.Writing.{Writes};
ghost use Rattle.nas_elements.specs.Guti.{guti_in, guti_octets, stmsi_in, stmsi_octets, stmsi_of};
ghost use Rattle.nas_elements.specs.Layout.{guti_layout, met, stmsi_layout};
ghost use Rattle.nas_elements.specs.Reads.{Reads};

use crate::Wrong;
use crate::layout::{Line, met_by};
use crate::numbers::{in_four_octets, in_two_octets};
use crate::packed::{plmn_of, plmn_to};
use byteorder::{BigEndian, ByteOrder};
use nas_base::{Full, Plmn, Writer};

/// The 5G-GUTI: the network, the AMF in it (the region, and set and pointer as one number of 10 and 6 bits), and the 5G-TMSI
/// that this AMF gave (TS 23.003 clause 2.10.1).
#[derive(Drop)]
pub struct Guti {
    pub plmn: Plmn,
    pub region: u8,
    pub set_pointer: u16,
    pub tmsi: u32,
}

/// The 5G-S-TMSI: what is left of a 5G-GUTI within its region (TS 23.003 clause 2.11).
#[derive(Clone, Copy)]
pub struct Stmsi {
    pub set_pointer: u16,
    pub tmsi: u32,
}

// Types of identity 2 and 4 under a high half F.
const GUTI: u8 = 0xf2;

const STMSI: u8 = 0xf4;

impl Guti {
    /// The 5G-GUTI in the octets.
    ///
    /// # Errors
    ///
    /// `Wrong` exactly where no 5G-GUTI has these octets.
    pub fn read(octets: &[u8]) -> Result<Guti, Wrong>
        ensures { Reads guti_in octets.now result }
    {
        match Guti::from_slice(octets) {
            Some(guti) => Ok(guti),
            None => Err(Wrong {
                at: met_by_guti(octets),
            }),
        }
    }

    /// Writes its 11 octets.
    ///
    /// # Errors
    ///
    /// `Full` exactly where they don't fit; nothing is then written.
    pub fn write(&self, out: &mut Writer) -> Result<(), Full>
        ensures { Writes (guti_octets self.now) out.old out.new result }
    {
        out.put(&self.octets())
    }

    /// Its 11 octets.
    pub fn octets(&self) -> [u8; 11]
        ensures { result ≡ guti_octets self.now }
    {
        let [a, b, c] = plmn_to(&self.plmn);
        let [high, low] = in_two_octets(self.set_pointer);
        let [d, e, f, g] = in_four_octets(self.tmsi);
        [GUTI, a, b, c, self.region, high, low, d, e, f, g]
    }

    /// An equal value.
    pub fn copy(&self) -> Guti
        ensures { result ≡ self.now }
    {
        Guti {
            plmn: self.plmn.copy(),
            region: self.region,
            set_pointer: self.set_pointer,
            tmsi: self.tmsi,
        }
    }

    /// What is left of it within its region.
    pub fn stmsi(&self) -> Stmsi
        ensures { result ≡ stmsi_of self.now }
    {
        Stmsi {
            set_pointer: self.set_pointer,
            tmsi: self.tmsi,
        }
    }

    // The 5G-GUTI in the octets, if there is one.
    fn from_slice(octets: &[u8]) -> Option<Guti>
        ensures { result ≡ guti_in octets.now }
    {
        if octets.len() != 11 || octets[0] % 8 != GUTI % 8 {
            return None;
        }
        let plmn = plmn_of(octets[1], octets[2], octets[3])?;
        Some(Guti {
            plmn,
            region: octets[4],
            set_pointer: BigEndian::read_u16(&octets[5..]),
            tmsi: BigEndian::read_u32(&octets[7..]),
        })
    }
}

impl Stmsi {
    /// The 5G-S-TMSI in the octets.
    ///
    /// # Errors
    ///
    /// `Wrong` exactly where no 5G-S-TMSI has these octets.
    #[tactic(auto, using(crate::proofs::GutiFronts::wrong_stmsi))]
    pub fn read(octets: &[u8]) -> Result<Stmsi, Wrong>
        ensures { Reads stmsi_in octets.now result }
    {
        match Stmsi::from_slice(octets) {
            Some(stmsi) => Ok(stmsi),
            None => Err(Wrong {
                at: met_by_stmsi(octets),
            }),
        }
    }

    /// Writes its 7 octets.
    ///
    /// # Errors
    ///
    /// `Full` exactly where they don't fit; nothing is then written.
    pub fn write(&self, out: &mut Writer) -> Result<(), Full>
        ensures { Writes (stmsi_octets self.now) out.old out.new result }
    {
        out.put(&self.octets())
    }

    /// Its 7 octets.
    pub fn octets(&self) -> [u8; 7]
        ensures { result ≡ stmsi_octets self.now }
    {
        let [high, low] = in_two_octets(self.set_pointer);
        let [a, b, c, d] = in_four_octets(self.tmsi);
        [STMSI, high, low, a, b, c, d]
    }

    // The 5G-S-TMSI in the octets, if there is one.
    fn from_slice(octets: &[u8]) -> Option<Stmsi>
        ensures { result ≡ stmsi_in octets.now }
    {
        if octets.len() != 7 || octets[0] % 8 != STMSI % 8 {
            return None;
        }
        Some(Stmsi {
            set_pointer: BigEndian::read_u16(&octets[1..]),
            tmsi: BigEndian::read_u32(&octets[3..]),
        })
    }
}

/// How many octets are the front of a 5G-GUTI's.
pub fn met_by_guti(octets: &[u8]) -> usize
    ensures { result ≡ met 0 guti_layout octets.now }
{
    met_by(
        &[
            Line::TypeOfIdentity(2),
            Line::TwoDigits,
            Line::DigitAndPerhapsAnother,
            Line::TwoDigits,
            Line::Any,
            Line::Any,
            Line::Any,
            Line::Any,
            Line::Any,
            Line::Any,
            Line::Any,
        ],
        octets,
    )
}

/// How many octets are the front of a 5G-S-TMSI's.
pub fn met_by_stmsi(octets: &[u8]) -> usize
    ensures { result ≡ met 0 stmsi_layout octets.now }
{
    met_by(
        &[
            Line::TypeOfIdentity(4),
            Line::Any,
            Line::Any,
            Line::Any,
            Line::Any,
            Line::Any,
            Line::Any,
        ],
        octets,
    )
}
