//! The addresses of one family.
ghost use Rattle.std.specs.Prelude.{◌≡◌, ◌≤◌, ◌<◌, ◌+◌, ◌^◌, IfOk, IfSome};
ghost use Rattle.nas_pools.specs.Numbers.{least_free};
ghost use Rattle.nas_pools.specs.Families.{IsFamily, octets_of, taken_at, taken_number, unused, unused_v6, with_given, with_taken, without_taken};

use crate::config::Pool6;
use crate::numbers::Numbers;
use byteorder::{BigEndian, ByteOrder};
use nas_base::Memory;
use std::alloc::Global;
use std::marker::Model;

// The addresses of a family: the first as a number, and which of those from it on are taken.
#[derive(Drop)]
pub struct Family {
    first: u64,
    numbers: Numbers,
}

impl Model for Family {
    ghost use Rattle.std.specs.Prelude.{◌≤◌, ◌+◌, ◌^◌};
    ghost use Rattle.nas_pools.specs.Families.{FamilyParts};

    ghost Value = { FamilyParts };

    ghost view = { λ f. record { first = f.first; size = f.numbers.size; taken = f.numbers.taken } };

    ghost invariant = { λ f. f.first + f.numbers.size ≤ 2 ^ 64 };
}

impl Family {
    // None is taken.
    pub fn new(alloc: Global, first: u64, size: usize) -> Result<Family, Memory>
        requires size { size ≤ 65536 }
        requires end { first + size ≤ 2 ^ 64 }
        ensures { IfOk result (λ family. family ≡ unused first size) }
    {
        Ok(Family {
            first,
            numbers: Numbers::new(alloc, size)?,
        })
    }

    // The identifiers of IPv6 of which none is taken; there are none where there is no pool of them.
    pub fn new_v6(alloc: Global, pool6: Option<Pool6>) -> Result<Family, Memory>
        ensures { IfOk result (λ family. family ≡ unused_v6 pool6) }
    {
        match pool6 {
            Some(Pool6 { first, size }) => Family::new(alloc, first, size as usize),
            None => Family::new(alloc, 0, 0),
        }
    }

    // An equal value, or `Memory`.
    pub fn copy(&self, alloc: Global) -> Result<Family, Memory>
        ensures { IfOk result (λ copy. copy ≡ self.now) }
    {
        Ok(Family {
            first: self.first,
            numbers: self.numbers.copy(alloc)?,
        })
    }

    // How many addresses there are.
    pub fn size(&self) -> usize
        ensures { result ≡ self.now.size }
    {
        self.numbers.size()
    }

    // The least number that is free.
    pub fn least(&self) -> Option<usize>
        ensures value { result ≡ least_free self.now.size self.now.taken }
        ensures below { IfSome result (λ n. n < self.now.size) }
    {
        self.numbers.least_free()
    }

    // The least number that would be free if this one were given back.
    pub fn least_with(&self, given: Option<usize>) -> Option<usize>
        requires { IfSome given (λ n. n < self.now.size) }
        ensures value { result ≡ least_free self.now.size (with_given given self.now).taken }
        ensures below { IfSome result (λ n. n < self.now.size) }
    {
        match given {
            Some(number) => self.numbers.least_without(number),
            None => self.numbers.least_free(),
        }
    }

    // The octets of an IPv4 address.
    pub fn octets4(&self, number: usize) -> [u8; 4]
        requires there { number < self.now.size }
        requires end { self.now.first + self.now.size ≤ 2 ^ 32 }
        ensures { result ≡ octets_of 4 self.now number }
    {
        let mut octets = [0; 4];
        BigEndian::write_u32(&mut octets, (self.first + number as u64) as u32);
        octets
    }

    // The octets of an interface identifier of IPv6.
    pub fn octets8(&self, number: usize) -> [u8; 8]
        requires { number < self.now.size }
        ensures { result ≡ octets_of 8 self.now number }
    {
        let mut octets = [0; 8];
        BigEndian::write_u64(&mut octets, self.first + number as u64);
        octets
    }

    // The number of an IPv4 address, where it is taken.
    pub fn taken4(&self, octets: &[u8; 4]) -> Option<usize>
        ensures value { result ≡ taken_number 4 octets.now self.now }
        ensures below { IfSome result (λ n. n < self.now.size) }
    {
        self.taken(u64::from(BigEndian::read_u32(octets)))
    }

    // The number of an interface identifier of IPv6, where it is taken.
    pub fn taken8(&self, octets: &[u8; 8]) -> Option<usize>
        ensures value { result ≡ taken_number 8 octets.now self.now }
        ensures below { IfSome result (λ n. n < self.now.size) }
    {
        self.taken(BigEndian::read_u64(octets))
    }

    // The number of an address that is given as a number itself, where it is taken.
    fn taken(&self, address: u64) -> Option<usize>
        ensures value { result ≡ taken_at address self.now }
        ensures below { IfSome result (λ n. n < self.now.size) }
    {
        if address < self.first {
            return None;
        }
        let number = (address - self.first) as usize;
        if self.numbers.has(number) {
            Some(number)
        } else {
            None
        }
    }

    // Takes a number.
    pub fn take(&mut self, number: usize)
        requires { number < self.old.size }
        ensures { self.new ≡ with_taken number self.old }
    {
        self.numbers.take(number);
    }

    // Gives a number back.
    pub fn give(&mut self, number: usize)
        requires { number < self.old.size }
        ensures { self.new ≡ without_taken number self.old }
    {
        self.numbers.give(number);
    }

    // The numbers that are taken rise, each below the size, and the last address is below 2^64.
    pub fn stand(&self)
        ensures { IsFamily 64 self.now }
    {
        self.numbers.rise();
        let _ = &self.first;
    }
}
