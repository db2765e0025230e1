//! The name of a serving network (TS 24.501 clause 9.12.1).
ghost use Rattle.std.specs.Prelude.{◌≡◌, true};
ghost use Rattle.nas_base.specs.Digits.{are_digits};
ghost use Rattle.key_chain.specs.ServingNetwork.{ascii, snn, three_digits};

use nas_base::{Digits, Plmn};

/// The serving network name of a network, as text: `5G:mncNNN.mccNNN.3gppnetwork.org`. A network code of two digits has
/// a leading 0.
#[tactic(auto, unfolding(crate::specs::ServingNetwork::snn))]
pub fn snn(plmn: &Plmn) -> [u8; 32]
    ensures { result ≡ snn plmn.now }
{
    let mut name = *b"5G:mnc000.mcc000.3gppnetwork.org";
    name[6..9].copy_from_slice(&code_text(&plmn.mnc));
    name[13..16].copy_from_slice(&code_text(&plmn.mcc));
    name
}

// The three digits of a code as text, with a leading 0 before two.
fn code_text(code: &Digits) -> [u8; 3]
    requires { are_digits 2 3 code.now ≡ true }
    ensures { result ≡ ascii (three_digits code.now) }
{
    match code.as_slice() {
        [a, b] => [b'0', b'0' + *a, b'0' + *b],
        [a, b, c] => [b'0' + *a, b'0' + *b, b'0' + *c],
        _ => unreachable!(),
    }
}
