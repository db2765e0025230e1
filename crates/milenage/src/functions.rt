//! The functions of MILENAGE (TS 35.206 clause 4.1).
ghost use Rattle.std.specs.Prelude.{◌≡◌, ◌≤◌};
ghost use Rattle.milenage.specs.Milenage.{constant, f1, f1_star, f2345, f5_star, opc_of, out, out1, temp};

use crate::F2345;
use crate::octets::{joined, part, rotated, xor};
use aes_cmac::encrypt_block;

// The rotations in bits, and the last octets of the constants.
const R1: usize = 64;

const R2: usize = 0;

const R3: usize = 32;

const R4: usize = 64;

const R5: usize = 96;

const C1: u8 = 0;

const C2: u8 = 1;

const C3: u8 = 2;

const C4: u8 = 4;

const C5: u8 = 8;

/// OPc of a subscriber's K and the operator's OP: OP XOR what AES makes of it under K (TS 35.206 clause 4.1).
#[tactic(auto, unfolding(crate::specs::Milenage::opc_of))]
pub fn opc_of(k: &[u8; 16], op: &[u8; 16]) -> [u8; 16]
    ensures { result ≡ opc_of k.now op.now }
{
    xor(op, &encrypt_block(k, op))
}

/// MAC-A of a challenge, of SQN and of the AMF field, by which a handset knows its home network.
#[tactic(auto, unfolding(crate::specs::Milenage::f1))]
pub fn f1(k: &[u8; 16], opc: &[u8; 16], rand: &[u8; 16], sqn: &[u8; 6], field: &[u8; 2]) -> [u8; 8]
    ensures { result ≡ f1 k.now opc.now rand.now sqn.now field.now }
{
    part(0, &out1(k, opc, rand, sqn, field))
}

/// MAC-S of the same, by which a home network knows the handset that tells its sequence number.
#[tactic(auto, unfolding(crate::specs::Milenage::f1_star))]
pub fn f1_star(
    k: &[u8; 16],
    opc: &[u8; 16],
    rand: &[u8; 16],
    sqn: &[u8; 6],
    field: &[u8; 2],
) -> [u8; 8]
    ensures { result ≡ f1_star k.now opc.now rand.now sqn.now field.now }
{
    part(8, &out1(k, opc, rand, sqn, field))
}

/// RES, CK, IK and AK of a challenge: f2, f3, f4 and f5.
pub fn f2345(k: &[u8; 16], opc: &[u8; 16], rand: &[u8; 16]) -> F2345
    ensures { result ≡ f2345 k.now opc.now rand.now }
{
    let temp = temp(k, opc, rand);
    let out2 = out(R2, C2, k, opc, &temp);
    F2345 {
        res: part(8, &out2),
        ck: out(R3, C3, k, opc, &temp),
        ik: out(R4, C4, k, opc, &temp),
        ak: part(0, &out2),
    }
}

/// The AK that covers the sequence number in AUTS.
#[tactic(auto, unfolding(crate::specs::Milenage::f5_star))]
pub fn f5_star(k: &[u8; 16], opc: &[u8; 16], rand: &[u8; 16]) -> [u8; 6]
    ensures { result ≡ f5_star k.now opc.now rand.now }
{
    part(0, &out(R5, C5, k, opc, &temp(k, opc, rand)))
}

// TEMP.
fn temp(k: &[u8; 16], opc: &[u8; 16], rand: &[u8; 16]) -> [u8; 16]
    ensures { result ≡ temp k.now opc.now rand.now }
{
    encrypt_block(k, &xor(rand, opc))
}

// OUT1.
fn out1(k: &[u8; 16], opc: &[u8; 16], rand: &[u8; 16], sqn: &[u8; 6], field: &[u8; 2]) -> [u8; 16]
    ensures { result ≡ out1 k.now opc.now rand.now sqn.now field.now }
{
    let half: [u8; 8] = joined(sqn, field);
    let in1: [u8; 16] = joined(&half, &half);
    let input = xor(&temp(k, opc, rand), &rotated(xor(&in1, opc), R1));
    xor(&encrypt_block(k, &xor(&input, &constant(C1))), opc)
}

// OUT2 to OUT5, by their rotation and constant.
fn out(bits: usize, last: u8, k: &[u8; 16], opc: &[u8; 16], temp: &[u8; 16]) -> [u8; 16]
    requires { bits ≤ 128 }
    ensures { result ≡ out bits last k.now opc.now temp.now }
{
    let input = rotated(xor(temp, opc), bits);
    xor(&encrypt_block(k, &xor(&input, &constant(last))), opc)
}

// 15 octets of zeros, and this one.
fn constant(last: u8) -> [u8; 16]
    ensures { result ≡ constant last }
{
    let mut constant = [0; 16];
    constant[15] = last;
    constant
}
