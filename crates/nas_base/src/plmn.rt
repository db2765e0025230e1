//! The identity of a network.
ghost use Rattle.std.specs.Prelude.{◌≡◌, ◌≤◌, length};
ghost use Rattle.nas_base.specs.Plmn.{plmn_digits, plmn_from, plmn_of_digits};

use crate::Digits;
use arrayvec::ArrayVec;
use std::marker::Model;

/// A PLMN identity: a mobile country code of 3 digits, and a mobile network code of 2 or 3 (TS 23.003 clause 12.1).
#[derive(Debug, Drop, PartialEq, Eq)]
pub struct Plmn {
    pub mcc: Digits,
    pub mnc: Digits,
}

impl Model for Plmn {
    ghost use Rattle.std.specs.Prelude.{◌≡◌, true};
    ghost use Rattle.nas_base.specs.Plmn.{PlmnIdentity, is_plmn};

    ghost Value = { PlmnIdentity };

    ghost view = { λ p. record { mcc = p.mcc; mnc = p.mnc } };

    ghost invariant = { λ p. is_plmn p.mcc p.mnc ≡ true };

    ghost inverse = { λ p. record { mcc = p.mcc; mnc = p.mnc } };
}

impl Plmn {
    /// The network of these two codes, or None exactly where they aren't 3 digits, and 2 or 3.
    pub fn from_codes(mcc: &[u8], mnc: &[u8]) -> Option<Plmn>
        ensures { result ≡ plmn_from mcc.now mnc.now }
    {
        let mcc = Digits::between(3, 3, mcc)?;
        let mnc = Digits::between(2, 3, mnc)?;
        Some(Plmn { mcc, mnc })
    }

    /// The network of 5 or 6 digits, the first 3 of which are the country's; or None exactly where it isn't so.
    pub fn from_digits(digits: &[u8]) -> Option<Plmn>
        ensures { result ≡ plmn_of_digits digits.now }
    {
        if digits.len() < 3 {
            return None;
        }
        let (mcc, mnc) = digits.split_at(3);
        Plmn::from_codes(mcc, mnc)
    }

    /// An equal value.
    pub fn copy(&self) -> Plmn
        ensures { result ≡ self.now }
    {
        Plmn {
            mcc: self.mcc.copy(),
            mnc: self.mnc.copy(),
        }
    }

    /// The 5 or 6 digits of both codes, as an IMSI begins.
    pub fn digits(&self) -> Digits
        ensures value { result ≡ plmn_digits self.now }
        ensures count { length result ≤ 6 }
    {
        let mut items = ArrayVec::new();
        items.try_extend_from_slice(self.mcc.as_slice()).unwrap();
        items.try_extend_from_slice(self.mnc.as_slice()).unwrap();
        Digits { items }
    }
}
