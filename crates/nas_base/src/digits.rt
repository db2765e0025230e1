//! Decimal digits.
ghost use Rattle.std.specs.Prelude.{◌≡◌, true};
ghost use Rattle.nas_base.specs.Digits.{all_digits, are_digits, digits_between, digits_from};

use arrayvec::ArrayVec;
use std::marker::Model;

/// 1 to 15 decimal digits, each a number from 0 to 9, as an IMSI has them (TS 23.003 clause 2.2).
#[derive(Debug, Drop, PartialEq, Eq)]
pub struct Digits {
    pub items: ArrayVec<u8, 15>,
}

impl Model for Digits {
    ghost use Rattle.std.specs.Prelude.{ℕ, List, ◌≡◌, true};
    ghost use Rattle.nas_base.specs.Digits.{are_digits};

    ghost Value = { List ℕ };

    ghost view = { λ d. d.items.items };

    ghost invariant = { λ d. are_digits 1 15 d.items.items ≡ true };

    ghost inverse = { λ ds. record { items = record { items = ds } } };
}

impl Digits {
    /// These digits, or None exactly where they are none, more than 15, or one of them is above 9.
    pub fn from_slice(digits: &[u8]) -> Option<Digits>
        ensures { result ≡ digits_from digits.now }
    {
        if digits.is_empty() || !only_digits(digits) {
            return None;
        }
        let mut items = ArrayVec::new();
        match items.try_extend_from_slice(digits) {
            Ok(()) => Some(Digits { items }),
            Err(_) => None,
        }
    }

    /// These digits, or None exactly where there are fewer than `low` or more than `high`, or they are none that
    /// `from_slice` takes.
    pub fn between(low: usize, high: usize, digits: &[u8]) -> Option<Digits>
        ensures { result ≡ digits_between low high digits.now }
    {
        if digits.len() < low || high < digits.len() {
            return None;
        }
        Digits::from_slice(digits)
    }

    /// An equal value.
    pub fn copy(&self) -> Digits
        ensures { result ≡ self.now }
    {
        Digits::from_slice(self.as_slice()).unwrap()
    }

    /// The digits in order.
    pub fn as_slice(&self) -> &[u8]
        ensures value { result.now ≡ self.now }
        ensures digits { are_digits 1 15 result.now ≡ true }
    {
        self.items.as_slice()
    }
}

// Each of them is a digit.
fn only_digits(digits: &[u8]) -> bool
    ensures { result ≡ all_digits digits.now }
{
    digits.iter().all(|digit| *digit < 10)
}
