//! Subscribers that are compared.
ghost use Rattle.std.specs.Prelude.{◌≡◌};
ghost use Rattle.std.specs.Str.{bytes_eq};

use crate::octet_at;
use nas_base::Supi;

// The place of the last of a SUPI's 15 digits.
const LAST_DIGIT: usize = 14;

/// Whether these are the digits of one SUPI. The last one is looked at first, since subscribers of one network mostly differ in it.
#[tactic(auto, using(crate::proofs::DigitLaws::last_digit_first))]
pub fn are_same_digits(one: &[u8], other: &[u8]) -> bool
    ensures { result ≡ bytes_eq one.now other.now }
{
    octet_at(one, LAST_DIGIT) == octet_at(other, LAST_DIGIT) && one == other
}

/// Whether two SUPIs are equal.
pub fn is_same_supi(one: &Supi, other: &Supi) -> bool
    ensures { result ≡ bytes_eq one.now other.now }
{
    are_same_digits(one.as_slice(), other.as_slice())
}
