//! The call of nas_pools, an address that is taken and given back often, for a clock outside:
//!
//!     time_take TAKEN TIMES
//!
//! It does so TIMES times, from a pool of 65,536 IPv4 addresses of which TAKEN are
//! taken, and answers a sum of the addresses.

use nas_elements::Address;
use nas_pools::Pools;
use probe_words::{Refusal, quantity, sum_of, sum_text};
use std::alloc::Global;

/// The answer to a call.
pub fn answer(alloc: Global, words: &[&str]) -> Result<String, Refusal> {
    match words {
        ["time_take", taken, times] => {
            sum_text(
                alloc,
                take_often(alloc, quantity(taken)?, quantity(times)?)?,
            )
        }
        _ => Err(Refusal::Unreadable),
    }
}

// Takes the least free address and gives it back so often.
fn take_often(alloc: Global, taken: u32, times: u32) -> Result<u64, Refusal> {
    let mut pools = Pools::new(alloc, [10, 0, 0, 0], 65_536, None)?;
    for _ in 0..taken {
        let _ = pools.take(1);
    }
    let mut sum = 0u64;
    for _ in 0..times {
        if let Ok(address) = pools.take(1) {
            sum = sum.wrapping_add(octets_sum(&address));
            let _ = pools.give(&address);
        }
    }
    Ok(sum)
}

// A sum of the octets of an IPv4 address.
fn octets_sum(address: &Address) -> u64 {
    match address {
        Address::V4(octets) => sum_of(octets),
        _ => 0,
    }
}
