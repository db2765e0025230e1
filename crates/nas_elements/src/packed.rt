//! Decimal digits in octets, two in each, the first in the low half.
ghost use Rattle.std.specs.Prelude.{◌≡◌, ◌+◌, ◌*◌, ◌<◌, ◌≤◌, length};
ghost use Rattle.nas_elements.specs.Packed.{halves_of, packed, plmn_in, plmn_octets, two_halves, unfilled};

use arrayvec::ArrayVec;
use nas_base::{Digits, Plmn};

// What stands in a half where no digit does.
pub const FILLER: u8 = 15;

/// An octet of two halves.
pub(crate) fn two_halves(low: u8, high: u8) -> u8
    requires { low + 16 * high < 256 }
    ensures { result ≡ low + 16 * high }
{
    low + 16 * high
}

/// The halves of at most 5 octets, the low one of each first.
pub fn halves(octets: &[u8]) -> ArrayVec<u8, 10>
    requires { length octets.now ≤ 5 }
    ensures { result.items ≡ halves_of octets.now }
{
    let mut halves = ArrayVec::new();
    for octet in octets {
        halves.push(*octet % 16);
        halves.push(*octet / 16);
    }
    halves
}

/// The halves without a filler at their end.
pub fn without_filler(halves: &[u8]) -> &[u8]
    ensures { result.now ≡ unfilled halves.now }
{
    match halves {
        [front @ .., last] if *last == FILLER => front,
        _ => halves,
    }
}

/// The digits in as many octets as they need, of at most 10.
pub fn pack(digits: &Digits) -> ArrayVec<u8, 5>
    requires { length digits.now ≤ 10 }
    ensures { result.items ≡ packed digits.now }
{
    let mut octets = ArrayVec::new();
    let mut left = digits.as_slice();
    while let [low, high, rest @ ..] = left {
        octets.push(two_halves(*low, *high));
        left = rest;
    }
    if let [low] = left {
        octets.push(two_halves(*low, FILLER));
    }
    octets
}

/// The network in three octets (TS 24.501 figure 9.11.3.4.3), or None exactly where there is none in them.
pub fn plmn_of(a: u8, b: u8, c: u8) -> Option<Plmn>
    ensures { result ≡ plmn_in a b c }
{
    let mcc = [a % 16, a / 16, b % 16];
    if b / 16 == FILLER {
        Plmn::from_codes(&mcc, &[c % 16, c / 16])
    } else {
        Plmn::from_codes(&mcc, &[c % 16, c / 16, b / 16])
    }
}

/// The three octets of a network (TS 24.501 figure 9.11.3.4.3).
pub fn plmn_to(plmn: &Plmn) -> [u8; 3]
    ensures { result ≡ plmn_octets plmn.now }
{
    let mcc = plmn.mcc.as_slice();
    let mnc = plmn.mnc.as_slice();
    let third = if mnc.len() == 3 { mnc[2] } else { FILLER };
    [
        two_halves(mcc[0], mcc[1]),
        two_halves(mcc[2], third),
        two_halves(mnc[0], mnc[1]),
    ]
}
