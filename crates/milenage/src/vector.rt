//! Authentication vectors (TS 33.102 clause 6.3.2).
ghost use Rattle.std.specs.Prelude.{◌≡◌, ◌<◌, ◌^◌};
ghost use Rattle.milenage.specs.Autn.{vector};

use crate::octets::{joined, sqn_octets, xor};
use crate::{F2345, f1, f2345};

/// What a home network makes for one challenge: the AUTN and the keys that come with them.
#[derive(Clone, Copy, PartialEq, Eq)]
pub struct Vector {
    /// The sequence number, below 2^48.
    pub sqn: u64,
    /// The challenge.
    pub rand: [u8; 16],
    /// SQN XOR AK, the AMF field, MAC-A.
    pub autn: [u8; 16],
    /// The answer that is expected.
    pub res: [u8; 8],
    /// The cipher key.
    pub ck: [u8; 16],
    /// The integrity key.
    pub ik: [u8; 16],
    /// The anonymity key.
    pub ak: [u8; 6],
}

/// The vector of a challenge and of a sequence number below 2^48, with this AMF field.
#[tactic(auto, unfolding(crate::specs::Autn::vector))]
pub fn make_vector(
    k: &[u8; 16],
    opc: &[u8; 16],
    rand: &[u8; 16],
    sqn: u64,
    field: &[u8; 2],
) -> Vector
    requires { sqn < 2 ^ 48 }
    ensures { result ≡ vector k.now opc.now rand.now sqn field.now }
{
    let F2345 { res, ck, ik, ak } = f2345(k, opc, rand);
    let number = sqn_octets(sqn);
    let front: [u8; 8] = joined(&xor(&number, &ak), field);
    let autn = joined(&front, &f1(k, opc, rand, &number, field));
    Vector {
        sqn,
        rand: *rand,
        autn,
        res,
        ck,
        ik,
        ak,
    }
}
