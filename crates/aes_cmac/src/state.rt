//! The state of AES: 16 octets in four columns.
ghost use Rattle.std.specs.Prelude.{◌≡◌};
ghost use Rattle.aes_cmac.specs.Aes.{add_words, columns, octets_of, sub_word};

use crate::substitution::substituted;

/// Four octets: a column of a state, or a word of a round key.
pub type Word = [u8; 4];

/// Four columns, or the four words of a round key.
pub type State = [Word; 4];

/// The state of a block, column after column (FIPS 197 section 3.4).
pub fn state_of_block(block: &[u8; 16]) -> State
    ensures { result ≡ columns block.now }
{
    [
        [block[0], block[1], block[2], block[3]],
        [block[4], block[5], block[6], block[7]],
        [block[8], block[9], block[10], block[11]],
        [block[12], block[13], block[14], block[15]],
    ]
}

/// The block of a state, column after column (FIPS 197 section 3.4).
pub fn block_of_state(state: &State) -> [u8; 16]
    ensures { result ≡ octets_of state.now }
{
    let [a, b, c, d] = state;
    [
        a[0], a[1], a[2], a[3], b[0], b[1], b[2], b[3], c[0], c[1], c[2], c[3], d[0], d[1], d[2],
        d[3],
    ]
}

/// The sum of two words, element by element.
pub fn sum_of_words(a: &Word, b: &Word) -> Word
    ensures { result ≡ add_words a.now b.now }
{
    [a[0] ^ b[0], a[1] ^ b[1], a[2] ^ b[2], a[3] ^ b[3]]
}

/// The word with each element substituted.
pub fn substituted_word(word: &Word) -> Word
    ensures { result ≡ sub_word word.now }
{
    [
        substituted(word[0]),
        substituted(word[1]),
        substituted(word[2]),
        substituted(word[3]),
    ]
}
