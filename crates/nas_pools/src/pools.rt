//! The pools of an SMF.
ghost use Rattle.std.specs.Prelude.{◌≡◌, ◌<◌, true, IfOk, IfSome};
ghost use Rattle.nas_pools.specs.Config.{is_pool_size, pool_fits};
ghost use Rattle.nas_pools.specs.Kinds.{is_kind};
ghost use Rattle.nas_pools.specs.Pools.{ArePools, Gives, Nexts, Taken, Takes, freed, has_address, has_v6, next_of, next_with, take_both, take_of, take_v4, take_v6, unused_pools};

use crate::config::Pool6;
use crate::family::Family;
use crate::refusals::{Empty, NotTaken};
use byteorder::{BigEndian, ByteOrder};
use nas_base::Memory;
use nas_elements::Address;
use std::alloc::Global;
use std::marker::Model;

// The kinds of addresses; 3 is both.
const IPV4: u8 = 1;

const IPV6: u8 = 2;

/// The addresses of an SMF: a pool of IPv4 addresses, and one of interface identifiers of IPv6 where there is one; each has 1 to
/// 65,536. To take and to give back takes no memory (TS 23.501 clause 5.8.2.2).
#[derive(Drop)]
pub struct Pools {
    v4: Family,
    v6: Family,
}

impl Model for Pools {
    ghost use Rattle.std.specs.Prelude.{◌≤◌, ◌+◌, ◌^◌};
    ghost use Rattle.nas_pools.specs.Pools.{PoolsParts};

    ghost Value = { PoolsParts };

    ghost view = { λ p. record { v4 = p.v4; v6 = p.v6 } };

    ghost invariant = { λ p. p.v4.first + p.v4.size ≤ 2 ^ 32 };
}

impl Pools {
    /// Pools of which nothing is taken: `size4` IPv4 addresses from `first4` on, and the identifiers of `pool6`.
    ///
    /// # Errors
    ///
    /// `Memory`.
    pub fn new(
        alloc: Global,
        first4: [u8; 4],
        size4: u32,
        pool6: Option<Pool6>,
    ) -> Result<Pools, Memory>
        requires size { is_pool_size size4 ≡ true }
        requires end { pool_fits first4 size4 ≡ true }
        ensures { IfOk result (λ pools. pools ≡ unused_pools first4 size4 pool6) }
    {
        let first = u64::from(BigEndian::read_u32(&first4));
        let v4 = Family::new(alloc, first, size4 as usize)?;
        let v6 = Family::new_v6(alloc, pool6)?;
        Ok(Pools { v4, v6 })
    }

    /// An equal value, or `Memory`.
    pub fn copy(&self, alloc: Global) -> Result<Pools, Memory>
        ensures { IfOk result (λ copy. copy ≡ self.now) }
    {
        Ok(Pools {
            v4: self.v4.copy(alloc)?,
            v6: self.v6.copy(alloc)?,
        })
    }

    /// Whether there are interface identifiers of IPv6.
    pub fn has_v6(&self) -> bool
        ensures { result ≡ has_v6 self.now }
    {
        self.v6.size() > 0
    }

    /// Whether each part of an address is taken.
    pub fn has(&self, address: &Address) -> bool
        ensures { result ≡ has_address address.now self.now }
    {
        match address {
            Address::V4(v4) => self.v4.taken4(v4).is_some(),
            Address::V6(v6) => self.v6.taken8(v6).is_some(),
            Address::V4V6(v6, v4) => {
                self.v4.taken4(v4).is_some() && self.v6.taken8(v6).is_some()
            }
        }
    }

    /// Takes the least free address: of IPv4 (`kind` 1), of IPv6 (2), or one of each (3).
    ///
    /// # Errors
    ///
    /// `Empty` exactly where a family that the kind names has no free one; nothing is then taken.
    pub fn take(&mut self, kind: u8) -> Result<Address, Empty>
        requires { is_kind kind ≡ true }
        ensures { Takes kind result self.old self.new }
    {
        match self.take_kind(kind) {
            Some(address) => Ok(address),
            None => Err(Empty { kind }),
        }
    }

    /// The address that `take` would answer now.
    ///
    /// # Errors
    ///
    /// Those of `take`.
    pub fn next(&self, kind: u8) -> Result<Address, Empty>
        requires { is_kind kind ≡ true }
        ensures { Nexts kind result self.now }
    {
        match self.next_with(None, None, kind) {
            Some(address) => Ok(address),
            None => Err(Empty { kind }),
        }
    }

    /// The address that `take` would answer if `given` were given back before; where a part of `given` isn't taken, now.
    ///
    /// # Errors
    ///
    /// Those of `take` then.
    pub fn next_after(&self, given: &Address, kind: u8) -> Result<Address, Empty>
        requires { is_kind kind ≡ true }
        ensures { Nexts kind result (freed given.now self.now) }
    {
        match self.next_given(given, kind) {
            Some(address) => Ok(address),
            None => Err(Empty { kind }),
        }
    }

    /// Gives an address back, so that it is free.
    ///
    /// # Errors
    ///
    /// `NotTaken` exactly where a part of it isn't taken; nothing then changes.
    #[tactic(auto, unfolding(crate::specs::Pools::give_of))]
    pub fn give(&mut self, address: &Address) -> Result<(), NotTaken>
        ensures { Gives address.now result self.old self.new }
    {
        match address {
            Address::V4(v4) => {
                let number = self.v4.taken4(v4).ok_or(NotTaken)?;
                self.v4.give(number);
            }
            Address::V6(v6) => {
                let number = self.v6.taken8(v6).ok_or(NotTaken)?;
                self.v6.give(number);
            }
            Address::V4V6(v6, v4) => {
                let four = self.v4.taken4(v4).ok_or(NotTaken)?;
                let six = self.v6.taken8(v6).ok_or(NotTaken)?;
                self.v4.give(four);
                self.v6.give(six);
            }
        }
        Ok(())
    }

    /// Says what holds of all pools: the numbers that are taken rise, each below its pool's size, and the last addresses are some of
    /// their families.
    pub fn stand(&self)
        ensures { ArePools self.now }
    {
        self.v4.stand();
        self.v6.stand();
    }

    // Takes the least free address of a kind, if there is one.
    #[tactic(auto, unfolding(crate::specs::Pools::take_of))]
    fn take_kind(&mut self, kind: u8) -> Option<Address>
        ensures { Taken (take_of kind self.old) result self.old self.new }
    {
        match kind {
            IPV4 => self.take_v4(),
            IPV6 => self.take_v6(),
            _ => self.take_both(),
        }
    }

    fn take_v4(&mut self) -> Option<Address>
        ensures { Taken (take_v4 self.old) result self.old self.new }
    {
        let number = self.v4.least()?;
        let octets = self.v4.octets4(number);
        self.v4.take(number);
        Some(Address::V4(octets))
    }

    fn take_v6(&mut self) -> Option<Address>
        ensures { Taken (take_v6 self.old) result self.old self.new }
    {
        let number = self.v6.least()?;
        let octets = self.v6.octets8(number);
        self.v6.take(number);
        Some(Address::V6(octets))
    }

    // Both are looked for before one is taken.
    fn take_both(&mut self) -> Option<Address>
        ensures { Taken (take_both self.old) result self.old self.new }
    {
        let four = self.v4.least()?;
        let six = self.v6.least()?;
        let octets4 = self.v4.octets4(four);
        let octets6 = self.v6.octets8(six);
        self.v4.take(four);
        self.v6.take(six);
        Some(Address::V4V6(octets6, octets4))
    }

    // The address that would be taken next if this one were given back.
    #[tactic(auto, unfolding(crate::specs::Pools::give_of))]
    fn next_given(&self, given: &Address, kind: u8) -> Option<Address>
        ensures { result ≡ next_of kind (freed given.now self.now) }
    {
        match given {
            Address::V4(v4) => self.next_with(self.v4.taken4(v4), None, kind),
            Address::V6(v6) => self.next_with(None, self.v6.taken8(v6), kind),
            Address::V4V6(v6, v4) => match (self.v4.taken4(v4), self.v6.taken8(v6)) {
                (Some(four), Some(six)) => self.next_with(Some(four), Some(six), kind),
                _ => self.next_with(None, None, kind),
            },
        }
    }

    // The same for the numbers of an address.
    #[tactic(auto, unfolding(crate::specs::Pools::take_of))]
    fn next_with(&self, four: Option<usize>, six: Option<usize>, kind: u8) -> Option<Address>
        requires v4 { IfSome four (λ n. n < self.now.v4.size) }
        requires v6 { IfSome six (λ n. n < self.now.v6.size) }
        ensures { result ≡ next_with four six kind self.now }
    {
        match kind {
            IPV4 => {
                let number = self.v4.least_with(four)?;
                Some(Address::V4(self.v4.octets4(number)))
            }
            IPV6 => {
                let number = self.v6.least_with(six)?;
                Some(Address::V6(self.v6.octets8(number)))
            }
            _ => {
                let four = self.v4.least_with(four)?;
                let six = self.v6.least_with(six)?;
                Some(Address::V4V6(self.v6.octets8(six), self.v4.octets4(four)))
            }
        }
    }
}
