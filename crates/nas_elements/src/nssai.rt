//! Lists of slices.
ghost use Rattle.std.specs.Prelude.{◌≡◌, ◌≤◌, length, true};
ghost use Rattle.nas_base.specs.Writing.{Writes};
ghost use Rattle.nas_elements.specs.Nssai.{first_in, is_nssai, nssai_from, nssai_in, nssai_octets, starts_slice};
ghost use Rattle.nas_elements.specs.Reads.{Reads};

use crate::slice::is_slice_size;
use crate::{Slice, Wrong};
use arrayvec::ArrayVec;
use nas_base::{Full, Writer};
use std::marker::Model;

const MOST: usize = 8;

/// 1 to 8 slices, in order (NSSAI, TS 24.501 clause 9.11.3.37).
#[derive(Drop)]
pub struct Nssai {
    pub items: ArrayVec<Slice, 8>,
}

impl Model for Nssai {
    ghost use Rattle.std.specs.Prelude.{List, ◌≡◌, true};
    ghost use Rattle.nas_elements.specs.Nssai.{is_nssai};
    ghost use Rattle.nas_elements.specs.declared.slice.Slice.{Slice};

    ghost Value = { List Slice };

    ghost view = { λ n. n.items.items };

    ghost invariant = { λ n. is_nssai n.items.items ≡ true };

    ghost inverse = { λ slices. record { items = record { items = slices } } };
}

impl Nssai {
    /// The slices in the octets, each a length octet and its contents.
    ///
    /// # Errors
    ///
    /// `Wrong` exactly where they aren't 1 to 8 slices: at a length octet that no slice has, or that of a ninth slice;
    /// where a slice is cut, or there is none, at the number of octets.
    pub fn read(octets: &[u8]) -> Result<Nssai, Wrong>
        ensures { Reads nssai_in octets.now result }
    {
        let mut items = ArrayVec::new();
        let mut rest = octets;
        while !rest.is_empty() {
            let size = rest[0] as usize;
            if !starts_slice(MOST - items.len(), size) {
                return Err(Wrong {
                    at: octets.len() - rest.len(),
                });
            }
            let Some(slice) = first_slice(rest) else {
                return Err(Wrong { at: octets.len() });
            };
            items.push(slice);
            rest = rest.split_at(1 + size).1;
        }
        if items.is_empty() {
            return Err(Wrong { at: 0 });
        }
        Ok(Nssai { items })
    }

    /// Writes its slices, each a length octet and its contents.
    ///
    /// # Errors
    ///
    /// `Full` exactly where they don't all fit; nothing is then written.
    pub fn write(&self, out: &mut Writer) -> Result<(), Full>
        ensures { Writes (nssai_octets self.now) out.old out.new result }
    {
        out.put(self.octets().as_slice())
    }

    /// The number of its octets: 2 to 40.
    pub fn size(&self) -> usize
        ensures value { result ≡ length (nssai_octets self.now) }
        ensures limit { result ≤ 40 }
    {
        self.octets().len()
    }

    /// These slices, or None exactly where they are none or more than 8.
    pub fn from_slice(slices: &[Slice]) -> Option<Nssai>
        ensures { result ≡ nssai_from slices.now }
    {
        if slices.is_empty() || slices.len() > MOST {
            return None;
        }
        let mut items = ArrayVec::new();
        for slice in slices {
            items.push(slice.copy());
        }
        Some(Nssai { items })
    }

    /// The slices in order.
    pub fn as_slice(&self) -> &[Slice]
        ensures value { result.now ≡ self.now }
        ensures slices { is_nssai result.now ≡ true }
    {
        self.items.as_slice()
    }

    /// An equal value.
    pub fn copy(&self) -> Nssai
        ensures { result ≡ self.now }
    {
        Nssai::from_slice(self.as_slice()).unwrap()
    }

    /// Its octets: 2 to 40.
    pub fn octets(&self) -> ArrayVec<u8, 40>
        ensures { result.items ≡ nssai_octets self.now }
    {
        let mut octets = ArrayVec::new();
        for slice in self.as_slice() {
            let contents = slice.octets();
            octets.push(contents.len() as u8);
            octets.try_extend_from_slice(contents.as_slice()).unwrap();
        }
        octets
    }
}

// Whether, where so many slices may still come, one starts with this length octet.
fn starts_slice(most: usize, size: usize) -> bool
    ensures { result ≡ starts_slice most size }
{
    most > 0 && is_slice_size(size)
}

// The slice that stands first, behind its length octet.
fn first_slice(octets: &[u8]) -> Option<Slice>
    ensures { result ≡ first_in octets.now }
{
    let [size, behind @ ..] = octets else {
        return None;
    };
    Slice::read(behind.get(..*size as usize)?).ok()
}
