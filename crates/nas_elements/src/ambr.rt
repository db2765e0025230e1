//! The bit rates of a session.
ghost use Rattle.std.specs.Prelude.{◌≡◌};
ghost use Rattle.nas_base.specs.Writing.{Writes};
ghost use Rattle.nas_elements.specs.Ambr.{ambr_in, ambr_octets};
ghost use Rattle.nas_elements.specs.Reads.{Reads};

use crate::Wrong;
use crate::numbers::in_two_octets;
use byteorder::{BigEndian, ByteOrder};
use nas_base::{Full, Writer};

const SIZE: usize = 6;

/// The session AMBR, the aggregate maximum bit rate of a session: for the downlink and for the uplink a number of `down` or
/// `up`, 0 to 65,535, in the unit that `down_unit` or `up_unit` tells (TS 24.501 clause 9.11.4.14). The units are kept as they
/// are.
#[derive(Clone, Copy, PartialEq, Eq)]
pub struct Ambr {
    pub down_unit: u8,
    pub down: u16,
    pub up_unit: u8,
    pub up: u16,
}

impl Ambr {
    /// The session AMBR in the octets.
    ///
    /// # Errors
    ///
    /// `Wrong` exactly where there are not 6 octets.
    #[tactic(auto, using(crate::proofs::AmbrLaws::wrong_ambr))]
    pub fn read(octets: &[u8]) -> Result<Ambr, Wrong>
        ensures { Reads ambr_in octets.now result }
    {
        match Ambr::from_slice(octets) {
            Some(ambr) => Ok(ambr),
            None => Err(Wrong {
                at: octets.len().min(SIZE),
            }),
        }
    }

    /// Writes its 6 octets.
    ///
    /// # Errors
    ///
    /// `Full` exactly where they don't fit; nothing is then written.
    pub fn write(&self, out: &mut Writer) -> Result<(), Full>
        ensures { Writes (ambr_octets self.now) out.old out.new result }
    {
        out.put(&self.octets())
    }

    /// Its octets.
    pub fn octets(&self) -> [u8; 6]
        ensures { result ≡ ambr_octets self.now }
    {
        let [down_high, down_low] = in_two_octets(self.down);
        let [up_high, up_low] = in_two_octets(self.up);
        [
            self.down_unit,
            down_high,
            down_low,
            self.up_unit,
            up_high,
            up_low,
        ]
    }

    // The session AMBR in the octets, if there is one.
    fn from_slice(octets: &[u8]) -> Option<Ambr>
        ensures { result ≡ ambr_in octets.now }
    {
        if octets.len() != SIZE {
            return None;
        }
        Some(Ambr {
            down_unit: octets[0],
            down: BigEndian::read_u16(&octets[1..]),
            up_unit: octets[3],
            up: BigEndian::read_u16(&octets[4..]),
        })
    }
}
