//! The names of data networks.
ghost use Rattle.std.specs.Prelude.{◌≡◌, ◌≤◌, length};
ghost use Rattle.nas_base.specs.Writing.{Writes};
ghost use Rattle.nas_elements.specs.Dnn.{dnn_fault, dnn_in, fits_label};
ghost use Rattle.nas_elements.specs.Reads.{Reads};

use crate::Wrong;
use arrayvec::ArrayVec;
use nas_base::{Full, Writer};
use std::marker::Model;

const MOST: usize = 100;

const LONGEST: usize = 63;

/// A data network name: one or more labels, each a length octet of 1 to 63 and then so many octets, at most 100 octets
/// in all (TS 23.003 clause 9.1, TS 24.501 clause 9.11.2.1B).
#[derive(Drop, PartialEq, Eq)]
pub struct Dnn {
    pub items: ArrayVec<u8, 100>,
}

impl Model for Dnn {
    ghost use Rattle.std.specs.Prelude.{ℕ, List, ◌≡◌, true};
    ghost use Rattle.nas_elements.specs.Dnn.{is_dnn};

    ghost Value = { List ℕ };

    ghost view = { λ d. d.items.items };

    ghost invariant = { λ d. is_dnn d.items.items ≡ true };

    ghost inverse = { λ octets. record { items = record { items = octets } } };
}

impl Dnn {
    /// The name in the octets.
    ///
    /// # Errors
    ///
    /// `Wrong` exactly where they aren't labels, or more than 100: at the length octet of a label of 0 octets or more than
    /// 63, or of one that would end behind octet 100; where a label is cut, or there is none, at their number.
    #[tactic(auto, using(crate::proofs::DnnLaws::wrong_dnn))]
    pub fn read(octets: &[u8]) -> Result<Dnn, Wrong>
        ensures { Reads dnn_in octets.now result }
    {
        if let Some(at) = fault_in(octets) {
            return Err(Wrong { at });
        }
        let mut items = ArrayVec::new();
        items.try_extend_from_slice(octets).unwrap();
        Ok(Dnn { items })
    }

    /// Writes its octets.
    ///
    /// # Errors
    ///
    /// `Full` exactly where they don't fit; nothing is then written.
    pub fn write(&self, out: &mut Writer) -> Result<(), Full>
        ensures { Writes self.now out.old out.new result }
    {
        out.put(self.as_slice())
    }

    /// The name of these octets, or None exactly where they aren't labels, or more than 100.
    pub fn from_slice(octets: &[u8]) -> Option<Dnn>
        ensures { result ≡ dnn_in octets.now }
    {
        Dnn::read(octets).ok()
    }

    /// The octets in order.
    pub fn as_slice(&self) -> &[u8]
        ensures value { result.now ≡ self.now }
        ensures limit { length result.now ≤ 100 }
    {
        self.items.as_slice()
    }

    /// An equal value.
    pub fn copy(&self) -> Dnn
        ensures { result ≡ self.now }
    {
        let _ = &self.items;
        Dnn::from_slice(self.as_slice()).unwrap()
    }
}

// Where the octets stop being the front of a DNN's, or None exactly where they are one.
fn fault_in(octets: &[u8]) -> Option<usize>
    ensures { result ≡ dnn_fault octets.now }
{
    let mut owed = 0;
    for (at, octet) in octets.iter().enumerate() {
        let size = *octet as usize;
        if owed > 0 {
            owed -= 1;
        } else if label_fits(MOST - at, size) {
            owed = size;
        } else {
            return Some(at);
        }
    }
    if owed > 0 || octets.is_empty() {
        return Some(octets.len());
    }
    None
}

// Whether a label can have so many octets, which with its length octet fit into the room.
fn label_fits(room: usize, size: usize) -> bool
    ensures { result ≡ fits_label room size }
{
    1 <= size && size <= LONGEST && size < room
}
