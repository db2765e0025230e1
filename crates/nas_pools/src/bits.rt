//! Bits of words: bit n % 64 of word n / 64 stands for the number n.
ghost use Rattle.std.specs.Prelude.{◌≡◌, ◌*◌, ◌/◌, ◌<◌, ◌≤◌, length, slice_index};
ghost use Rattle.nas_pools.specs.Bits.{AreBits, cleared, is_full, is_marked, marked};
ghost use Rattle.nas_pools.specs.Numbers.{first_failing};

// How many numbers have a bit in one word.
pub const WIDTH: usize = 64;

// The first number whose bit is 0, or None exactly where all bits are 1.
pub fn first_clear(words: &[u64]) -> Option<usize>
    requires { length words.now ≤ 65536 }
    ensures { result ≡ first_failing (is_marked words.now) 0 (64 * length words.now) }
{
    for (place, word) in words.iter().enumerate() {
        if *word != u64::MAX {
            return Some(WIDTH * place + word.trailing_ones() as usize);
        }
    }
    None
}

// The first number below the size whose bit is 0, found by the bits of the words that are full.
pub fn first_free(size: usize, words: &[u64], full: &[u64]) -> Option<usize>
    requires { AreBits size words.now full.now }
    ensures { result ≡ first_failing (is_marked words.now) 0 size }
{
    let place = first_clear(full)?;
    if place >= words.len() {
        return None;
    }
    let number = WIDTH * place + words[place].trailing_ones() as usize;
    if number < size { Some(number) } else { None }
}

// Whether a number's bit is 1.
pub fn is_marked(words: &[u64], number: usize) -> bool
    requires { number / 64 < length words.now }
    ensures { result ≡ is_marked words.now number }
{
    words[number / WIDTH] >> (number % WIDTH) & 1 == 1
}

// Whether all bits of a word are 1.
pub fn is_full(words: &[u64], word: usize) -> bool
    requires { word < length words.now }
    ensures { result ≡ is_full (slice_index words.now word) }
{
    words[word] == u64::MAX
}

// Makes a number's bit 1.
#[tactic(auto, unfolding(crate::specs::Bits::marked))]
pub fn mark(words: &mut Vec<u64>, number: usize)
    requires { number / 64 < length words.old.items }
    ensures { words.new.items ≡ marked number words.old.items }
{
    words[number / WIDTH] |= 1 << (number % WIDTH);
}

// Makes a number's bit 0.
#[tactic(auto, unfolding(crate::specs::Bits::cleared))]
pub fn clear(words: &mut Vec<u64>, number: usize)
    requires { number / 64 < length words.old.items }
    ensures { words.new.items ≡ cleared number words.old.items }
{
    words[number / WIDTH] &= !(1 << (number % WIDTH));
}
