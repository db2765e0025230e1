//! What pools are made of.
ghost use Rattle.std.specs.Prelude.{◌≡◌};
ghost use Rattle.nas_pools.specs.Config.{is_pool_size, pool6_from, pool_fits};

use byteorder::{BigEndian, ByteOrder};
use std::marker::Model;

/// A pool of 1 to 65,536 interface identifiers of IPv6 (TS 23.501 clause 5.8.2.2.3), of which the last is 2^64 - 1 at most.
#[derive(Clone, Copy, Debug, PartialEq, Eq)]
pub struct Pool6 {
    /// The first identifier.
    pub first: u64,
    /// How many there are.
    pub size: u32,
}

impl Model for Pool6 {
    ghost use Rattle.std.specs.Prelude.{◌≡◌, true};
    ghost use Rattle.nas_pools.specs.Config.{Pool6Parts, is_pool6};

    ghost Value = { Pool6Parts };

    ghost view = { λ p. record { first = p.first; size = p.size } };

    ghost invariant = { λ p. is_pool6 (record { first = p.first; size = p.size }) ≡ true };

    ghost inverse = { λ p. record { first = p.first; size = p.size } };
}

impl Pool6 {
    /// So many identifiers from this one on, or None exactly where they are none, more than 65,536, or end above 2^64 - 1.
    pub fn from_parts(first: u64, size: u32) -> Option<Pool6>
        ensures { result ≡ pool6_from first size }
    {
        let end = u128::from(first) + u128::from(size);
        if is_pool_size(size) && end <= 1 << 64 {
            return Some(Pool6 { first, size });
        }
        None
    }
}

/// Whether a pool may have so many addresses: 1 to 65,536.
pub fn is_pool_size(size: u32) -> bool
    ensures { result ≡ is_pool_size size }
{
    1 <= size && size <= 65_536
}

/// Whether so many IPv4 addresses from this one on end at or below 255.255.255.255.
pub fn pool_fits(first: &[u8; 4], size: u32) -> bool
    ensures { result ≡ pool_fits first.now size }
{
    let first = u64::from(BigEndian::read_u32(first));
    first + u64::from(size) <= 0x1_0000_0000
}
