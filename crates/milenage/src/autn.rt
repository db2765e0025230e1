//! What a handset makes of a challenge (TS 33.102 clause 6.3.3).
ghost use Rattle.std.specs.Prelude.{◌≡◌, ◌<◌, ◌^◌};
ghost use Rattle.milenage.specs.Checking.{SqnFits, auts, checked};

use crate::octets::{joined, part, sqn_number, sqn_octets, xor};
use crate::{F2345, f1, f1_star, f5_star, f2345};

/// The answer to RAND and AUTN.
#[derive(Clone, Copy, PartialEq, Eq)]
pub enum AutnAnswer {
    /// The network is the home network's, and the challenge is a fresh one.
    Accepted {
        /// The sequence number of the challenge, below 2^48.
        sqn: u64,
        /// The answer to the challenge, and the cipher, integrity and anonymity keys.
        res: [u8; 8],
        ck: [u8; 16],
        ik: [u8; 16],
        ak: [u8; 6],
    },
    /// The MAC isn't the one of the subscriber's keys.
    MacFailure,
    /// The first bit of the AMF field, its separation bit, is 0: the challenge isn't one for 5G (TS 33.501 clause 6.1.3.2).
    NotFiveG,
    /// The sequence number isn't greater than the handset's own, which `auts` tells the home network.
    SynchFailure {
        auts: [u8; 14],
    },
}

/// The answer of a handset whose greatest accepted sequence number is `sqn_ms`, below 2^48. The MAC is checked first, then the
/// AMF field, then the sequence number.
#[tactic(auto, unfolding(crate::specs::Checking::checked))]
pub fn check_autn(
    k: &[u8; 16],
    opc: &[u8; 16],
    rand: &[u8; 16],
    autn: &[u8; 16],
    sqn_ms: u64,
) -> AutnAnswer
    requires { sqn_ms < 2 ^ 48 }
    ensures value { result ≡ checked k.now opc.now rand.now autn.now sqn_ms }
    ensures limit { SqnFits result }
{
    let F2345 { res, ck, ik, ak } = f2345(k, opc, rand);
    let sqn = xor(&part(0, autn), &ak);
    let field: [u8; 2] = part(6, autn);
    let mac: [u8; 8] = part(8, autn);
    if f1(k, opc, rand, &sqn, &field) != mac {
        return AutnAnswer::MacFailure;
    }
    if field[0] < 128 {
        return AutnAnswer::NotFiveG;
    }
    let number = sqn_number(&sqn);
    if number <= sqn_ms {
        return AutnAnswer::SynchFailure {
            auts: auts(k, opc, rand, sqn_ms),
        };
    }
    AutnAnswer::Accepted {
        sqn: number,
        res,
        ck,
        ik,
        ak,
    }
}

// AUTS of the handset's sequence number: SQN_MS XOR AK of f5*, MAC-S.
#[tactic(auto, unfolding(crate::specs::Checking::auts))]
fn auts(k: &[u8; 16], opc: &[u8; 16], rand: &[u8; 16], sqn_ms: u64) -> [u8; 14]
    requires { sqn_ms < 2 ^ 48 }
    ensures { result ≡ auts k.now opc.now rand.now sqn_ms }
{
    let sqn = sqn_octets(sqn_ms);
    let hidden = xor(&sqn, &f5_star(k, opc, rand));
    joined(&hidden, &f1_star(k, opc, rand, &sqn, &[0, 0]))
}
