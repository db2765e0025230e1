//! AES-128.
ghost use Rattle.std.specs.Prelude.{◌≡◌};
ghost use Rattle.aes_cmac.specs.Aes.{aes, cipher};

use crate::rounds::{last_round, round, sum};
use crate::schedule::{RoundKeys, round_keys};
use crate::state::{block_of_state, state_of_block};

/// AES-128 of one block under a key (FIPS 197).
#[tactic(auto, unfolding(crate::specs::Aes::aes))]
pub fn encrypt_block(key: &[u8; 16], block: &[u8; 16]) -> [u8; 16]
    ensures { result ≡ aes key.now block.now }
{
    enciphered(&round_keys(key), block)
}

/// The block enciphered under round keys.
#[tactic(auto, unfolding(crate::specs::Aes::cipher))]
pub fn enciphered(keys: &RoundKeys, block: &[u8; 16]) -> [u8; 16]
    ensures { result ≡ cipher keys.now block.now }
{
    let mut state = sum(&state_of_block(block), &keys[0]);
    for n in 1..10 {
        state = round(&state, &keys[n]);
    }
    block_of_state(&last_round(&state, &keys[10]))
}
