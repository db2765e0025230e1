//! Where a handset is registered.
ghost use Rattle.std.specs.Prelude.{◌≡◌, ◌≤◌, length};
ghost use Rattle.nas_base.specs.Writing.{Writes};
ghost use Rattle.nas_elements.specs.Reads.{Reads};
ghost use Rattle.nas_elements.specs.TaiList.{one_area, tai_list_in};

use crate::Wrong;
use crate::packed::plmn_to;
use arrayvec::ArrayVec;
use nas_base::{Full, Plmn, Writer};
use std::marker::Model;

const LEAST: usize = 7;

const MOST: usize = 112;

/// The tracking area identity list, 7 to 112 octets, which are kept and not interpreted (TS 24.501 clause 9.11.3.9).
#[derive(Drop)]
pub struct TaiList {
    pub items: ArrayVec<u8, 112>,
}

impl Model for TaiList {
    ghost use Rattle.std.specs.Prelude.{ℕ, List, ◌≤◌, length};

    ghost Value = { List ℕ };

    ghost view = { λ l. l.items.items };

    ghost invariant = { λ l. (7 ≤ length l.items.items) × (length l.items.items ≤ 112) };

    ghost inverse = { λ octets. record { items = record { items = octets } } };
}

impl TaiList {
    /// The list in the octets.
    ///
    /// # Errors
    ///
    /// `Wrong` exactly where there are fewer than 7 octets, or more than 112.
    #[tactic(auto, using(crate::proofs::Sized::wrong_tai_list))]
    pub fn read(octets: &[u8]) -> Result<TaiList, Wrong>
        ensures { Reads tai_list_in octets.now result }
    {
        match TaiList::from_slice(octets) {
            Some(list) => Ok(list),
            None => Err(Wrong {
                at: octets.len().min(MOST),
            }),
        }
    }

    /// Writes its octets.
    ///
    /// # Errors
    ///
    /// `Full` exactly where they don't fit; nothing is then written.
    pub fn write(&self, out: &mut Writer) -> Result<(), Full>
        ensures { Writes self.now out.old out.new result }
    {
        out.put(self.as_slice())
    }

    /// The list of these octets, or None exactly where there are fewer than 7 or more than 112.
    pub fn from_slice(octets: &[u8]) -> Option<TaiList>
        ensures { result ≡ tai_list_in octets.now }
    {
        if octets.len() < LEAST {
            return None;
        }
        let mut items = ArrayVec::new();
        match items.try_extend_from_slice(octets) {
            Ok(()) => Some(TaiList { items }),
            Err(_) => None,
        }
    }

    /// The list of one tracking area: its network, and its code (TS 24.501 figure 9.11.3.9.2).
    pub fn of_one_area(plmn: &Plmn, tac: &[u8; 3]) -> TaiList
        ensures { result ≡ one_area plmn.now tac.now }
    {
        let mut items = ArrayVec::new();
        items.push(0);
        items.try_extend_from_slice(&plmn_to(plmn)).unwrap();
        items.try_extend_from_slice(tac).unwrap();
        TaiList { items }
    }

    /// The octets in order.
    pub fn as_slice(&self) -> &[u8]
        ensures value { result.now ≡ self.now }
        ensures limit { length result.now ≤ 112 }
    {
        self.items.as_slice()
    }

    /// An equal value.
    pub fn copy(&self) -> TaiList
        ensures value { result ≡ self.now }
        ensures limit { length result ≤ 112 }
    {
        let _ = &self.items;
        TaiList::from_slice(self.as_slice()).unwrap()
    }
}
