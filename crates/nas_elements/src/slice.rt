//! The slices of a network.
ghost use Rattle.std.specs.Prelude.{◌≡◌, ◌≤◌, length, true};
ghost use Rattle.nas_base.specs.Writing.{Writes};
ghost use Rattle.nas_elements.specs.Reads.{Reads};
ghost use Rattle.nas_elements.specs.Slice.{is_slice, is_slice_size, is_sst, is_sst_and_sd, slice_in, slice_octets};

use crate::Wrong;
use arrayvec::ArrayVec;
use nas_base::{Full, Writer};

const MOST: usize = 8;

/// A slice (S-NSSAI): its type, SST, and what tells slices of one type apart, SD (TS 24.501 clause 9.11.2.8).
#[derive(Clone, Copy, Default, PartialEq, Eq)]
pub struct Slice {
    pub sst: u8,
    pub sd: Option<[u8; 3]>,
}

impl Slice {
    /// The slice in the octets, which have no length octet before them: 1 or 2 have an SST, 4, 5 or 8 an SST and an SD.
    /// What is mapped to another network, behind those, is passed over.
    ///
    /// # Errors
    ///
    /// `Wrong` exactly at other numbers of octets.
    #[tactic(auto, using(crate::proofs::SliceLaws::wrong_slice))]
    pub fn read(octets: &[u8]) -> Result<Slice, Wrong>
        ensures { Reads slice_in octets.now result }
    {
        let size = octets.len();
        if has_sst(size) {
            return Ok(Slice {
                sst: octets[0],
                sd: None,
            });
        }
        if has_sst_and_sd(size) {
            return Ok(Slice {
                sst: octets[0],
                sd: Some([octets[1], octets[2], octets[3]]),
            });
        }
        Err(Wrong { at: size.min(MOST) })
    }

    /// Writes its octets, 1 or 4.
    ///
    /// # Errors
    ///
    /// `Full` exactly where they don't fit; nothing is then written.
    pub fn write(&self, out: &mut Writer) -> Result<(), Full>
        ensures { Writes (slice_octets self.now) out.old out.new result }
    {
        out.put(self.octets().as_slice())
    }

    /// The number of its octets: 1 or 4.
    pub fn size(&self) -> usize
        ensures value { result ≡ length (slice_octets self.now) }
        ensures limit { result ≤ 4 }
    {
        self.octets().len()
    }

    /// An equal value.
    pub fn copy(&self) -> Slice
        ensures value { result ≡ self.now }
        ensures sd { is_slice result ≡ true }
    {
        if let Some(sd) = self.sd {
            has_three(&sd);
        }
        *self
    }

    /// Its octets: 1 or 4.
    pub fn octets(&self) -> ArrayVec<u8, 4>
        ensures value { result.items ≡ slice_octets self.now }
        ensures limit { length result.items ≤ 4 }
    {
        let mut octets = ArrayVec::new();
        octets.push(self.sst);
        if let Some(sd) = self.sd {
            has_three(&sd);
            octets.try_extend_from_slice(&sd).unwrap();
        }
        octets
    }
}

// An SD has 3 octets.
fn has_three(sd: &[u8; 3])
    ensures { length sd.now ≡ 3 }
{
    let _sd = *sd;
}

// Whether a slice can have so many octets.
pub(crate) fn is_slice_size(size: usize) -> bool
    ensures { result ≡ is_slice_size size }
{
    has_sst(size) || has_sst_and_sd(size)
}

// Whether so many octets are an SST, with or without a mapped one.
fn has_sst(size: usize) -> bool
    ensures { result ≡ is_sst size }
{
    size == 1 || size == 2
}

// Whether so many octets are an SST and an SD, with or without what is mapped.
fn has_sst_and_sd(size: usize) -> bool
    ensures { result ≡ is_sst_and_sd size }
{
    size == 4 || size == 5 || size == 8
}
