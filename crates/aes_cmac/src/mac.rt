//! AES-CMAC.
ghost use Rattle.std.specs.Prelude.{◌≡◌, ◌<◌, ◌≤◌, length};
ghost use Rattle.aes_cmac.specs.Aes.{aes, cipher};
ghost use Rattle.aes_cmac.specs.Blocks.{xor_of};
ghost use Rattle.aes_cmac.specs.Cmac.{cmac, cmac_from, doubled_block, last_block, padded};

use crate::blocks::{Block, ZERO_BLOCK, add_mask};
use crate::cipher::enciphered;
use crate::schedule::{RoundKeys, round_keys};

// const_Rb (RFC 4493 section 2.2).
const REDUCTION: u128 = 0x87;

/// AES-CMAC of the octets, of any number (RFC 4493).
#[tactic(auto, unfolding(crate::specs::Aes::aes))]
pub fn cmac(key: &[u8; 16], octets: &[u8]) -> [u8; 16]
    ensures { result ≡ cmac (aes key.now) octets.now }
{
    mac_from(&round_keys(key), &ZERO_BLOCK, octets)
}

/// The CMAC of a message, of which the octets are left, and whose blocks before them led to this chaining value.
pub fn mac_from(keys: &RoundKeys, before: &Block, octets: &[u8]) -> Block
    ensures { result ≡ cmac_from (cipher keys.now) before.now octets.now }
{
    let mut chain = *before;
    let mut left = octets;
    while left.len() > 16 {
        let (block, behind) = left.split_at(16);
        chain = next_chain(keys, &chain, block);
        left = behind;
    }
    next_chain(keys, &chain, &last_of(keys, left))
}

/// The chaining value behind one block more.
pub fn next_chain(keys: &RoundKeys, before: &Block, block: &[u8]) -> Block
    requires { length block.now ≡ 16 }
    ensures { result ≡ cipher keys.now (xor_of before.now block.now) }
{
    let mut added = *before;
    add_mask(&mut added, block);
    enciphered(keys, &added)
}

// The last block: a whole one with the first subkey added, a cut one filled up, with the second.
#[tactic(auto, unfolding(crate::specs::Cmac::last_block))]
fn last_of(keys: &RoundKeys, octets: &[u8]) -> Block
    requires { length octets.now ≤ 16 }
    ensures { result ≡ last_block (cipher keys.now) octets.now }
{
    let first_subkey = doubled(&enciphered(keys, &ZERO_BLOCK));
    if octets.len() == 16 {
        let mut last = ZERO_BLOCK;
        last.copy_from_slice(octets);
        add_mask(&mut last, &first_subkey);
        last
    } else {
        let mut last = filled(octets);
        add_mask(&mut last, &doubled(&first_subkey));
        last
    }
}

// A cut block, a one, and zeros.
fn filled(octets: &[u8]) -> Block
    requires { length octets.now < 16 }
    ensures { result ≡ padded octets.now }
{
    let mut block = ZERO_BLOCK;
    block[..octets.len()].copy_from_slice(octets);
    block[octets.len()] = 0x80;
    block
}

// The block moved by one bit to the left, and the constant added where a one goes out.
#[tactic(auto, unfolding(crate::specs::Cmac::doubled_block), using(crate::proofs::CmacLemmas::twice_number))]
fn doubled(block: &Block) -> Block
    ensures { result ≡ doubled_block block.now }
{
    let number = u128::from_be_bytes(*block);
    ((number << 1) ^ (number >> 127) * REDUCTION).to_be_bytes()
}
