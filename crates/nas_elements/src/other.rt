//! Identities that are kept as their octets.
ghost use Rattle.std.specs.Prelude.{◌≡◌, ◌≤◌, length};
ghost use Rattle.nas_elements.specs.Other.{is_kept};

use crate::suci::IMSI_SUCI;
use nas_base::Octets;
use std::marker::Model;

/// An identity that is kept as its 1 to 4,100 octets: the SUCI of another scheme than the null scheme, another SUPI format,
/// or a type of identity that is neither a 5G-GUTI nor a 5G-S-TMSI (TS 24.501 clause 9.11.3.4).
#[derive(Drop)]
pub struct OtherIdentity {
    pub octets: Octets,
}

impl Model for OtherIdentity {
    ghost use Rattle.std.specs.Prelude.{ℕ, List, ◌≡◌, true};
    ghost use Rattle.nas_elements.specs.Other.{is_other};

    ghost Value = { List ℕ };

    ghost view = { λ o. o.octets };

    ghost invariant = { λ o. is_other o.octets ≡ true };
}

impl OtherIdentity {
    /// The octets in order.
    pub fn as_slice(&self) -> &[u8]
        ensures value { result.now ≡ self.now }
        ensures limit { length result.now ≤ 4100 }
    {
        self.octets.as_slice()
    }
}

/// Whether an identity of these octets is kept as it is, where there is one.
pub fn is_kept_as_it_is(octets: &[u8]) -> bool
    ensures { result ≡ is_kept octets.now }
{
    match octets {
        [] => true,
        [IMSI_SUCI, ..] => octets.len() >= 7 && octets[6] != 0,
        [first, ..] => first % 8 != 2 && first % 8 != 4,
    }
}
