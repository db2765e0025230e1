//! Layouts: what may stand in each octet of a value.
ghost use Rattle.std.specs.Prelude.{◌≡◌};
ghost use Rattle.nas_elements.specs.Layout.{meets, met, one_or_two_digits};

use crate::packed::FILLER;

/// What may stand in an octet.
#[derive(Clone, Copy)]
pub enum Line {
    Any,
    /// This value alone.
    Is(u8),
    /// This type of identity in bits 1 to 3; the bits above are passed over.
    TypeOfIdentity(u8),
    /// A digit in each half.
    TwoDigits,
    /// A digit in the low half, a digit or a filler in the high half.
    DigitAndPerhapsAnother,
    /// The last octet of a routing indicator: fillers, or further digits where the octet before it ended with one.
    RoutingEnd,
    /// Further digits where the octet before ended with one: as `DigitAndPerhapsAnother`.
    MoreDigits,
}

impl Line {
    // Whether the octet may stand here, behind the octet before it.
    fn is_met(self, before: u8, octet: u8) -> bool
        ensures { result ≡ meets self before octet }
    {
        match self {
            Line::Any => true,
            Line::Is(wanted) => octet == wanted,
            Line::TypeOfIdentity(wanted) => octet % 8 == wanted,
            Line::TwoDigits => octet % 16 < 10 && octet / 16 < 10,
            Line::DigitAndPerhapsAnother => is_one_or_two_digits(octet),
            Line::RoutingEnd => octet == 0xff || (before / 16 < 10 && is_one_or_two_digits(octet)),
            Line::MoreDigits => before / 16 < 10 && is_one_or_two_digits(octet),
        }
    }
}

// Whether the low half is a digit, and the high half a digit or a filler.
fn is_one_or_two_digits(octet: u8) -> bool
    ensures { result ≡ one_or_two_digits octet }
{
    octet % 16 < 10 && (octet / 16 < 10 || octet / 16 == FILLER)
}

/// How many octets meet their lines, up to the first that doesn't, or to the end of the octets or of the lines.
pub fn met_by(lines: &[Line], octets: &[u8]) -> usize
    ensures { result ≡ met 0 lines.now octets.now }
{
    let mut before = 0;
    for (at, line) in lines.iter().enumerate() {
        if at == octets.len() || !line.is_met(before, octets[at]) {
            return at;
        }
        before = octets[at];
    }
    lines.len()
}
