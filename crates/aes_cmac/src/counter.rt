//! The counter mode.
ghost use Rattle.std.specs.Prelude.{◌≡◌};
ghost use Rattle.aes_cmac.specs.Aes.{aes, cipher};
ghost use Rattle.aes_cmac.specs.Ctr.{ctr};

use crate::blocks::{Block, add_mask};
use crate::cipher::enciphered;
use crate::schedule::{RoundKeys, round_keys};

/// Enciphers the octets in place, or deciphers them, by AES-128 in the counter mode (SP 800-38A section 6.5). The counter
/// blocks count up from `first` modulo 2^128, and the last of them is used as far as there are octets.
#[tactic(auto, unfolding(crate::specs::Aes::aes))]
pub fn ctr_apply(key: &[u8; 16], first: &[u8; 16], octets: &mut [u8])
    ensures { octets.new ≡ ctr (aes key.now) first.now octets.old }
{
    apply(&round_keys(key), first, octets);
}

// The same under round keys.
fn apply(keys: &RoundKeys, first: &Block, octets: &mut [u8])
    ensures { octets.new ≡ ctr (cipher keys.now) first.now octets.old }
{
    let mut counter = u128::from_be_bytes(*first);
    for n in 0..octets.len().div_ceil(16) {
        let start = 16 * n;
        let end = usize::min(start + 16, octets.len());
        add_mask(
            &mut octets[start..end],
            &enciphered(keys, &counter.to_be_bytes()),
        );
        counter = counter.wrapping_add(1);
    }
}
