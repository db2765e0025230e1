//! A round of AES (FIPS 197 section 5.1).
ghost use Rattle.std.specs.Prelude.{◌≡◌};
ghost use Rattle.aes_cmac.specs.Field.{◌•◌, ◌⊕◌};
ghost use Rattle.aes_cmac.specs.Aes.{add_round_key, mix_column, mix_columns, shift_rows, sub_bytes};

use crate::field::{doubled, tripled};
use crate::state::{State, Word, substituted_word, sum_of_words};

/// A round: substitution, shift of the rows, mixing of the columns, and the round key.
pub fn round(state: &State, key: &State) -> State
    ensures { result ≡ add_round_key (mix_columns (shift_rows (sub_bytes state.now))) key.now }
{
    sum(&mixed(&shifted(&substituted(state))), key)
}

/// The last round, which has no mixing.
pub fn last_round(state: &State, key: &State) -> State
    ensures { result ≡ add_round_key (shift_rows (sub_bytes state.now)) key.now }
{
    sum(&shifted(&substituted(state)), key)
}

/// The sum of a state and a round key.
#[tactic(auto, unfolding(crate::specs::Aes::add_round_key))]
pub fn sum(state: &State, key: &State) -> State
    ensures { result ≡ add_round_key state.now key.now }
{
    [
        sum_of_words(&state[0], &key[0]),
        sum_of_words(&state[1], &key[1]),
        sum_of_words(&state[2], &key[2]),
        sum_of_words(&state[3], &key[3]),
    ]
}

// Each element substituted.
#[tactic(auto, unfolding(crate::specs::Aes::sub_bytes))]
fn substituted(state: &State) -> State
    ensures { result ≡ sub_bytes state.now }
{
    [
        substituted_word(&state[0]),
        substituted_word(&state[1]),
        substituted_word(&state[2]),
        substituted_word(&state[3]),
    ]
}

// Row r moved r places to the left.
#[tactic(auto, unfolding(crate::specs::Aes::shift_rows))]
fn shifted(state: &State) -> State
    ensures { result ≡ shift_rows state.now }
{
    let [a, b, c, d] = state;
    [
        [a[0], b[1], c[2], d[3]],
        [b[0], c[1], d[2], a[3]],
        [c[0], d[1], a[2], b[3]],
        [d[0], a[1], b[2], c[3]],
    ]
}

// Each column mixed.
#[tactic(auto, unfolding(crate::specs::Aes::mix_columns))]
fn mixed(state: &State) -> State
    ensures { result ≡ mix_columns state.now }
{
    [
        mixed_column(&state[0]),
        mixed_column(&state[1]),
        mixed_column(&state[2]),
        mixed_column(&state[3]),
    ]
}

fn mixed_column(column: &Word) -> Word
    ensures { result ≡ mix_column column.now }
{
    let [a, b, c, d] = *column;
    [
        mixed_element(a, b, c, d),
        mixed_element(b, c, d, a),
        mixed_element(c, d, a, b),
        mixed_element(d, a, b, c),
    ]
}

// What an element becomes, given those below it in its column, from the top again behind the last.
fn mixed_element(a: u8, b: u8, c: u8, d: u8) -> u8
    ensures { result ≡ 2 • a ⊕ 3 • b ⊕ c ⊕ d }
{
    doubled(a) ^ tripled(b) ^ c ^ d
}
