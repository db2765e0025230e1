//! The identity of a subscriber.
ghost use Rattle.std.specs.Prelude.{◌≡◌, ◌<◌, length, drop, true};
ghost use Rattle.nas_base.specs.Digits.{are_digits};
ghost use Rattle.nas_base.specs.Supi.{is_of_plmn, msin_of, supi_from};

use crate::{Digits, Plmn};
use std::marker::Model;

/// A subscription permanent identifier that is an IMSI: 15 digits, which begin with those of a network
/// (TS 23.003 clauses 2.2 and 2.2A).
#[derive(Debug, Drop, PartialEq, Eq)]
pub struct Supi(pub Digits);

impl Model for Supi {
    ghost use Rattle.std.specs.Prelude.{ℕ, List, ◌≡◌, true};
    ghost use Rattle.nas_base.specs.Digits.{are_digits};

    ghost Value = { List ℕ };

    ghost view = { λ s. s.0 };

    ghost invariant = { λ s. are_digits 15 15 s.0 ≡ true };

    ghost inverse = { λ ds. record { 0 = ds } };
}

impl Supi {
    /// The identifier of these digits, or None exactly where they aren't 15, or one of them is above 9.
    pub fn from_slice(digits: &[u8]) -> Option<Supi>
        ensures { result ≡ supi_from digits.now }
    {
        Some(Supi(Digits::between(15, 15, digits)?))
    }

    /// The digits in order.
    pub fn as_slice(&self) -> &[u8]
        ensures { result.now ≡ self.now }
    {
        self.0.as_slice()
    }

    /// An equal value.
    pub fn copy(&self) -> Supi
        ensures { result ≡ self.now }
    {
        Supi(self.0.copy())
    }

    /// Whether it begins with the digits of this network.
    pub fn is_of(&self, plmn: &Plmn) -> bool
        ensures { result ≡ is_of_plmn plmn.now self.now }
    {
        self.as_slice().starts_with(plmn.digits().as_slice())
    }

    /// The MSIN: the 9 or 10 digits behind those of the network.
    #[tactic(auto, using(crate::proofs::DigitsLemmas::digits_of_msin))]
    pub fn msin(&self, plmn: &Plmn) -> Digits
        ensures value { result ≡ msin_of plmn.now self.now }
        ensures digits { are_digits 9 10 result ≡ true }
    {
        let _ = &plmn.mcc;
        behind(&self.0, plmn.digits().as_slice().len())
    }
}

// The digits behind the first `count`.
#[tactic(auto, using(crate::proofs::DigitsLemmas::digits_behind))]
fn behind(digits: &Digits, count: usize) -> Digits
    requires { count < length digits.now }
    ensures { result ≡ drop count digits.now }
{
    let (_, rest) = digits.as_slice().split_at(count);
    Digits::from_slice(rest).unwrap()
}
