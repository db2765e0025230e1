//! The key schedule of AES-128 (FIPS 197 section 5.2).
ghost use Rattle.std.specs.Prelude.{◌≡◌};
ghost use Rattle.aes_cmac.specs.Aes.{key_expansion, next_round_key};

use crate::state::{State, state_of_block, substituted_word, sum_of_words};

/// A key, and the ten round keys behind it.
pub type RoundKeys = [State; 11];

// The constants of the ten rounds, powers of x (FIPS 197 table 5).
const CONSTANTS: [u8; 10] = [0x01, 0x02, 0x04, 0x08, 0x10, 0x20, 0x40, 0x80, 0x1b, 0x36];

/// The round key behind another, by the constant of its round.
#[tactic(auto, unfolding(crate::specs::Aes::next_round_key))]
pub fn next_key(key: &State, constant: u8) -> State
    ensures { result ≡ next_round_key constant key.now }
{
    let [a, b, c, d] = key;
    let rotated = [d[1], d[2], d[3], d[0]];
    let before = sum_of_words(&substituted_word(&rotated), &[constant, 0, 0, 0]);
    let first = sum_of_words(a, &before);
    let second = sum_of_words(b, &first);
    let third = sum_of_words(c, &second);
    let fourth = sum_of_words(d, &third);
    [first, second, third, fourth]
}

/// The round keys of a key.
#[tactic(auto, unfolding(crate::specs::Aes::key_expansion))]
pub fn round_keys(key: &[u8; 16]) -> RoundKeys
    ensures { result ≡ key_expansion key.now }
{
    let mut keys = [state_of_block(key); 11];
    for n in 0..10 {
        keys[n + 1] = next_key(&keys[n], CONSTANTS[n]);
    }
    keys
}
