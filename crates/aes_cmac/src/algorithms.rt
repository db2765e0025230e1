//! The algorithms of the Non-Access Stratum: 128-NIA2 and 128-NEA2 (TS 33.501 Annex D).
ghost use Rattle.std.specs.Prelude.{◌≡◌, ◌≤◌, ◌-◌, ◌++◌, length, replicate};
ghost use Rattle.aes_cmac.specs.Aes.{cipher};
ghost use Rattle.aes_cmac.specs.Cmac.{cmac};
ghost use Rattle.aes_cmac.specs.Nas.{direction_bit, head, nea2, nia2};

use crate::blocks::{Block, ZERO_BLOCK};
use crate::counter::ctr_apply;
use crate::mac::{mac_from, next_chain};
use crate::schedule::{RoundKeys, round_keys};
use nas_base::{Count, Dir};

// The NAS connection over 3GPP access.
const BEARER: u64 = 1;

/// The MAC of 128-NIA2 on the NAS connection over 3GPP access (TS 33.501 clause D.3.1.3). The octets are the sequence number
/// and the message behind it, as they are sent.
#[tactic(auto, unfolding(crate::specs::Nas::nia2, crate::specs::Aes::aes))]
pub fn nia2(key: &[u8; 16], count: Count, dir: Dir, octets: &[u8]) -> [u8; 4]
    ensures { result ≡ nia2 key.now count dir octets.now }
{
    let mac = mac_behind_head(&round_keys(key), &head_of(count, dir), octets);
    [mac[0], mac[1], mac[2], mac[3]]
}

/// Enciphers a message in place by 128-NEA2 on the NAS connection over 3GPP access, or deciphers it (TS 33.501 clause D.2.1.3).
#[tactic(auto, unfolding(crate::specs::Nas::nea2))]
pub fn nea2(key: &[u8; 16], count: Count, dir: Dir, octets: &mut [u8])
    ensures { octets.new ≡ nea2 key.now count dir octets.old }
{
    ctr_apply(key, &head_block(&head_of(count, dir), &[]), octets);
}

// COUNT in 32 bits, BEARER in 5, DIRECTION in 1, and 26 zero bits.
#[tactic(auto, unfolding(crate::specs::Nas::head))]
fn head_of(count: Count, dir: Dir) -> [u8; 8]
    ensures { result ≡ head count dir }
{
    let number = (u64::from(count.0) << 32) + (BEARER << 27) + (direction_of(dir) << 26);
    number.to_be_bytes()
}

fn direction_of(dir: Dir) -> u64
    ensures { result ≡ direction_bit dir }
{
    match dir {
        Dir::Up => 0,
        Dir::Down => 1,
    }
}

// The CMAC of the head and the octets behind it.
fn mac_behind_head(keys: &RoundKeys, head: &[u8; 8], octets: &[u8]) -> Block
    ensures { result ≡ cmac (cipher keys.now) (head.now ++ octets.now) }
{
    if octets.len() <= 8 {
        let first = head_block(head, octets);
        return mac_from(keys, &ZERO_BLOCK, &first[..8 + octets.len()]);
    }
    let (front, behind) = octets.split_at(8);
    let chain = next_chain(keys, &ZERO_BLOCK, &head_block(head, front));
    mac_from(keys, &chain, behind)
}

// The head and up to 8 octets, filled up with zeros.
fn head_block(head: &[u8; 8], front: &[u8]) -> Block
    requires { length front.now ≤ 8 }
    ensures { result ≡ head.now ++ (front.now ++ replicate (8 - length front.now) 0) }
{
    let mut block = ZERO_BLOCK;
    block[..8].copy_from_slice(head);
    block[8..8 + front.len()].copy_from_slice(front);
    block
}
