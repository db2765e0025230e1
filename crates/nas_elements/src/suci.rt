//! The SUCI of an IMSI.
ghost use Rattle.std.specs.Prelude.{◌≡◌, ◌≤◌, length};
ghost use Rattle.nas_base.specs.Writing.{Writes};
ghost use Rattle.nas_elements.specs.Layout.{met, suci_layout};
ghost use Rattle.nas_elements.specs.Reads.{Reads};
ghost use Rattle.nas_elements.specs.Suci.{is_null_scheme, msin_in, parts, routing_in, routing_octets, suci_in, suci_octets};

use crate::Wrong;
use crate::layout::{Line, met_by};
use crate::packed::{halves, pack, plmn_of, plmn_to, without_filler};
use arrayvec::ArrayVec;
use nas_base::{Digits, Full, Plmn, Writer};
use std::marker::Model;

/// The SUCI of an IMSI under the null scheme: the network, a routing indicator of 1 to 4 digits, and an MSIN of 1 to 10
/// (TS 23.003 clause 2.2B).
#[derive(Drop)]
pub struct Suci {
    pub plmn: Plmn,
    pub routing: Digits,
    pub msin: Digits,
}

impl Model for Suci {
    ghost use Rattle.std.specs.Prelude.{◌≡◌, true};
    ghost use Rattle.nas_elements.specs.Suci.{SuciParts, is_suci};

    ghost Value = { SuciParts };

    ghost view = { λ s. record { plmn = s.plmn; routing = s.routing; msin = s.msin } };

    ghost invariant = { λ s. is_suci s.routing s.msin ≡ true };

    ghost inverse = { λ s. record { plmn = s.plmn; routing = s.routing; msin = s.msin } };
}

// The SUPI format and the type of identity in the first octet of an IMSI's SUCI.
pub const IMSI_SUCI: u8 = 0x01;

impl Suci {
    /// The SUCI in the octets.
    ///
    /// # Errors
    ///
    /// `Wrong` exactly where no SUCI of an IMSI under the null scheme has these octets.
    pub fn read(octets: &[u8]) -> Result<Suci, Wrong>
        ensures { Reads suci_in octets.now result }
    {
        match Suci::from_slice(octets) {
            Some(suci) => Ok(suci),
            None => Err(Wrong {
                at: met_by_suci(octets),
            }),
        }
    }

    /// Writes its octets: 9 to 13.
    ///
    /// # Errors
    ///
    /// `Full` exactly where they don't fit; nothing is then written.
    pub fn write(&self, out: &mut Writer) -> Result<(), Full>
        ensures { Writes (suci_octets self.now) out.old out.new result }
    {
        out.put(self.octets().as_slice())
    }

    /// The number of its octets: 9 to 13.
    pub fn size(&self) -> usize
        ensures value { result ≡ length (suci_octets self.now) }
        ensures limit { result ≤ 13 }
    {
        self.octets().len()
    }

    /// Its octets: 9 to 13.
    pub fn octets(&self) -> ArrayVec<u8, 13>
        ensures { result.items ≡ suci_octets self.now }
    {
        let [a, b, c] = plmn_to(&self.plmn);
        let [d, e] = routing_to(&self.routing);
        let mut octets = ArrayVec::new();
        octets
            .try_extend_from_slice(&[IMSI_SUCI, a, b, c, d, e, 0, 0])
            .unwrap();
        octets
            .try_extend_from_slice(pack(&self.msin).as_slice())
            .unwrap();
        octets
    }

    // The SUCI in the octets, if there is one.
    fn from_slice(octets: &[u8]) -> Option<Suci>
        ensures { result ≡ suci_in octets.now }
    {
        if has_null_scheme(octets) {
            Suci::from_parts(octets)
        } else {
            None
        }
    }

    // The SUCI of the network, the routing indicator and the MSIN that stand in the octets.
    fn from_parts(octets: &[u8]) -> Option<Suci>
        requires { 8 ≤ length octets.now }
        ensures { result ≡ parts octets.now }
    {
        let plmn = plmn_of(octets[1], octets[2], octets[3])?;
        let routing = routing_of(&octets[4..6])?;
        let msin = msin_of(&octets[8..])?;
        Some(Suci {
            plmn,
            routing,
            msin,
        })
    }
}

/// How many octets are the front of a SUCI's.
pub fn met_by_suci(octets: &[u8]) -> usize
    ensures { result ≡ met 0 suci_layout octets.now }
{
    met_by(
        &[
            Line::Is(IMSI_SUCI),
            Line::TwoDigits,
            Line::DigitAndPerhapsAnother,
            Line::TwoDigits,
            Line::DigitAndPerhapsAnother,
            Line::RoutingEnd,
            Line::Is(0),
            Line::Is(0),
            Line::DigitAndPerhapsAnother,
            Line::MoreDigits,
            Line::MoreDigits,
            Line::MoreDigits,
            Line::MoreDigits,
        ],
        octets,
    )
}

// Whether they begin as an IMSI's SUCI and have the null scheme with its key identifier.
fn has_null_scheme(octets: &[u8]) -> bool
    ensures { result ≡ is_null_scheme octets.now }
{
    octets.len() >= 8 && octets[0] == IMSI_SUCI && octets[6] == 0 && octets[7] == 0
}

// The two octets of a routing indicator, with fillers behind its digits.
#[tactic(auto, using(crate::proofs::PackedLaws::packed_some))]
fn routing_to(routing: &Digits) -> [u8; 2]
    requires { length routing.now ≤ 4 }
    ensures { result ≡ routing_octets routing.now }
{
    let _ = &routing.items;
    match pack(routing).as_slice() {
        [first] => [*first, 0xff],
        [first, second, ..] => [*first, *second],
        [] => unreachable!(),
    }
}

// The 1 to 4 digits in the two octets of a routing indicator.
fn routing_of(octets: &[u8]) -> Option<Digits>
    requires { length octets.now ≡ 2 }
    ensures { result ≡ routing_in octets.now }
{
    let halves = halves(octets);
    let digits = without_filler(without_filler(without_filler(halves.as_slice())));
    Digits::between(1, 4, digits)
}

// The 1 to 10 digits in the octets of an MSIN.
#[tactic(auto, using(crate::proofs::PackedLaws::msin_of_many))]
fn msin_of(octets: &[u8]) -> Option<Digits>
    ensures { result ≡ msin_in octets.now }
{
    if 5 < octets.len() {
        return None;
    }
    let halves = halves(octets);
    Digits::between(1, 10, without_filler(halves.as_slice()))
}
