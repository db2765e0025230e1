//! Which numbers below a size are taken.
ghost use Rattle.std.specs.Prelude.{◌≡◌, ◌<◌, ◌≤◌, [], true, IfOk, IfSome, replicate};
ghost use Rattle.nas_pools.specs.Numbers.{is_in, least_free, rise, with_number, without};

use crate::bits::{WIDTH, clear, first_free, is_full, is_marked, mark};
use nas_base::Memory;
use std::alloc::Global;
use std::marker::Model;

// The numbers below a size that are taken: a bit for each number, and a bit for each word of these, which is 1 where the word has
// no bit that is 0. So the least free number of 65,536 is found behind a walk over 16 words at most.
#[derive(Drop)]
pub struct Numbers {
    size: usize,
    words: Vec<u64>,
    full: Vec<u64>,
}

impl Model for Numbers {
    ghost use Rattle.nas_pools.specs.Bits.{AreBits, is_marked, passing};
    ghost use Rattle.nas_pools.specs.Numbers.{NumbersParts};

    ghost Value = { NumbersParts };

    ghost view = { λ n. record { size = n.size; taken = passing (is_marked n.words.items) 0 n.size } };

    ghost invariant = { λ n. AreBits n.size n.words.items n.full.items };
}

impl Numbers {
    // None is taken.
    pub fn new(alloc: Global, size: usize) -> Result<Numbers, Memory>
        requires { size ≤ 65536 }
        ensures { IfOk result (λ numbers. numbers ≡ record { size = size; taken = [] }) }
    {
        let words = size.div_ceil(WIDTH);
        Ok(Numbers {
            size,
            words: zeros(alloc, words)?,
            full: zeros(alloc, words.div_ceil(WIDTH))?,
        })
    }

    // An equal value, or `Memory`.
    pub fn copy(&self, alloc: Global) -> Result<Numbers, Memory>
        ensures { IfOk result (λ copy. copy ≡ self.now) }
    {
        Ok(Numbers {
            size: self.size,
            words: same(alloc, self.words.as_slice())?,
            full: same(alloc, self.full.as_slice())?,
        })
    }

    // How many numbers there are.
    pub fn size(&self) -> usize
        ensures value { result ≡ self.now.size }
        ensures limit { result ≤ 65536 }
    {
        self.size
    }

    // The least number that isn't taken.
    #[tactic(auto, using(crate::proofs::PassingLemmas::least_passing))]
    pub fn least_free(&self) -> Option<usize>
        ensures value { result ≡ least_free self.now.size self.now.taken }
        ensures below { IfSome result (λ n. n < self.now.size) }
    {
        first_free(self.size, self.words.as_slice(), self.full.as_slice())
    }

    // The least number that wouldn't be taken if this one weren't.
    pub fn least_without(&self, number: usize) -> Option<usize>
        requires { number < self.now.size }
        ensures value { result ≡ least_free self.now.size (without number self.now.taken) }
        ensures below { IfSome result (λ n. n < self.now.size) }
    {
        match self.least_free() {
            Some(least) if least < number => Some(least),
            _ => Some(number),
        }
    }

    // Whether a number is taken.
    pub fn has(&self, number: usize) -> bool
        ensures value { result ≡ is_in number self.now.taken }
        ensures below { result ≡ true → number < self.now.size }
    {
        number < self.size && is_marked(self.words.as_slice(), number)
    }

    // Takes a number; all others stay.
    pub fn take(&mut self, number: usize)
        requires { number < self.old.size }
        ensures { self.new ≡ record self.old { taken = with_number number self.old.taken } }
    {
        let word = number / WIDTH;
        mark(&mut self.words, number);
        if is_full(self.words.as_slice(), word) {
            mark(&mut self.full, word);
        }
    }

    // The numbers that are taken rise, each below the size.
    pub fn rise(&self)
        ensures { rise 0 self.now.size self.now.taken ≡ true }
    {
        let _ = &self.words;
    }

    // Frees a number; all others stay.
    pub fn give(&mut self, number: usize)
        requires { number < self.old.size }
        ensures { self.new ≡ record self.old { taken = without number self.old.taken } }
    {
        clear(&mut self.words, number);
        clear(&mut self.full, number / WIDTH);
    }
}

// So many words of which no bit is 1.
fn zeros(alloc: Global, count: usize) -> Result<Vec<u64>, Memory>
    ensures { IfOk result (λ words. words.items ≡ replicate count 0) }
{
    match vec![in alloc; 0; count] {
        Ok(words) => Ok(words),
        Err(_) => Err(Memory),
    }
}

// These words once more.
fn same(alloc: Global, words: &[u64]) -> Result<Vec<u64>, Memory>
    ensures { IfOk result (λ copy. copy.items ≡ words.now) }
{
    match words.to_vec(alloc) {
        Ok(copy) => Ok(copy),
        Err(_) => Err(Memory),
    }
}
