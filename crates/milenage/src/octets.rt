//! Strings of octets.
ghost use Rattle.std.specs.Prelude.{◌≡◌, ◌≤◌, ◌<◌, ◌^◌, ◌+◌, ◌++◌, length};
ghost use Rattle.milenage.specs.Octets.{◌⊕◌, part, rot};
ghost use Rattle.milenage.specs.Autn.{sqn_number, sqn_octets};

use byteorder::{BigEndian, ByteOrder};

/// The exclusive or of two strings.
pub fn xor<const N: usize>(x: &[u8; N], y: &[u8; N]) -> [u8; N]
    ensures { result ≡ x.now ⊕ y.now }
{
    let mut sum = *x;
    for (n, octet) in sum.iter_mut().enumerate() {
        *octet ^= y[n];
    }
    sum
}

/// One string behind the other.
pub fn joined<const N: usize>(x: &[u8], y: &[u8]) -> [u8; N]
    requires { length x.now + length y.now ≡ N }
    ensures { result ≡ x.now ++ y.now }
{
    let mut both = [0; N];
    let (front, back) = both.split_at_mut(x.len());
    front.copy_from_slice(x);
    back.copy_from_slice(y);
    both
}

/// The octets from a place on.
pub fn part<const N: usize>(from: usize, x: &[u8]) -> [u8; N]
    requires { from + N ≤ length x.now }
    ensures { result ≡ part from N x.now }
{
    let (_, back) = x.split_at(from);
    let (middle, _) = back.split_at(N);
    let mut part = [0; N];
    part.copy_from_slice(middle);
    part
}

/// The block, rotated by `bits` to the left, a multiple of 8.
pub fn rotated(mut block: [u8; 16], bits: usize) -> [u8; 16]
    requires { bits ≤ 128 }
    ensures { result ≡ rot block bits }
{
    block.rotate_left(bits / 8);
    block
}

/// A sequence number as SQN.
#[tactic(auto, unfolding(crate::specs::Autn::sqn_octets))]
pub fn sqn_octets(number: u64) -> [u8; 6]
    requires { number < 2 ^ 48 }
    ensures { result ≡ sqn_octets number }
{
    let mut sqn = [0; 6];
    BigEndian::write_u48(&mut sqn, number);
    sqn
}

/// The sequence number of SQN.
#[tactic(auto, unfolding(crate::specs::Autn::sqn_number))]
pub fn sqn_number(sqn: &[u8; 6]) -> u64
    ensures value { result ≡ sqn_number sqn.now }
    ensures limit { result < 2 ^ 48 }
{
    BigEndian::read_u48(sqn)
}
