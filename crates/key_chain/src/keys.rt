//! The keys of an authentication, from CK and IK down to KAMF, and RES* (TS 33.501 Annex A).
ghost use Rattle.std.specs.Prelude.{◌≡◌, ◌≤◌, ◌++◌, length};
ghost use Rattle.key_chain.specs.Keys.{challenge_kamf, kamf, kausf, kseaf, last_half, res_star};
ghost use Rattle.key_chain.specs.ServingNetwork.{ascii};

use crate::{kdf1, kdf2, kdf3, snn};
use arrayvec::ArrayVec;
use nas_base::{Digits, Plmn, Supi};

// What each key is derived for: the values of FC (TS 33.501 Annex A).
const FOR_KAUSF: u8 = 0x6a;

const FOR_RES_STAR: u8 = 0x6b;

const FOR_KSEAF: u8 = 0x6c;

const FOR_KAMF: u8 = 0x6d;

/// RES* (or XRES*) of the answer `res` to the challenge `rand`: the last 16 octets of what CK and IK give (TS 33.501
/// Annex A.4).
#[tactic(auto, unfolding(crate::specs::Keys::res_star))]
pub fn res_star(
    ck: &[u8; 16],
    ik: &[u8; 16],
    plmn: &Plmn,
    rand: &[u8; 16],
    res: &[u8; 8],
) -> [u8; 16]
    ensures { result ≡ res_star ck.now ik.now plmn.now rand.now res.now }
{
    last_half(&kdf3(&joined(ck, ik), FOR_RES_STAR, &snn(plmn), rand, res))
}

/// The key KAUSF of the home network, where `hidden` is SQN XOR AK, the first 6 octets of AUTN (TS 33.501 Annex A.2).
#[tactic(auto, unfolding(crate::specs::Keys::kausf))]
pub fn kausf(ck: &[u8; 16], ik: &[u8; 16], plmn: &Plmn, hidden: &[u8; 6]) -> [u8; 32]
    ensures { result ≡ kausf ck.now ik.now plmn.now hidden.now }
{
    kdf2(&joined(ck, ik), FOR_KAUSF, &snn(plmn), hidden)
}

/// The anchor key KSEAF of the serving network (TS 33.501 Annex A.6).
#[tactic(auto, unfolding(crate::specs::Keys::kseaf))]
pub fn kseaf(kausf: &[u8; 32], plmn: &Plmn) -> [u8; 32]
    ensures { result ≡ kseaf kausf.now plmn.now }
{
    kdf1(kausf, FOR_KSEAF, &snn(plmn))
}

/// The key KAMF, for this subscriber and for ABBA, which has at most 65,535 octets (TS 33.501 Annex A.7.0).
#[tactic(auto, unfolding(crate::specs::Keys::kamf))]
pub fn kamf(kseaf: &[u8; 32], supi: &Supi, abba: &[u8]) -> [u8; 32]
    requires { length abba.now ≤ 65535 }
    ensures { result ≡ kamf kseaf.now supi.now abba.now }
{
    kdf2(kseaf, FOR_KAMF, text_of(&supi.0).as_slice(), abba)
}

/// The ABBA of this release (TS 33.501 Annex A.7.1).
pub const ABBA: [u8; 2] = [0, 0];

/// The key KAMF of a challenge of the serving network `plmn`, from the CK and IK that answer it and its AUTN, whose first 6 octets are
/// SQN XOR AK, for this subscriber and for ABBA, which has at most 65,535 octets (TS 33.501 Annex A).
pub fn challenge_kamf(
    ck: &[u8; 16],
    ik: &[u8; 16],
    autn: &[u8; 16],
    plmn: &Plmn,
    supi: &Supi,
    abba: &[u8],
) -> [u8; 32]
    requires { length abba.now ≤ 65535 }
    ensures { result ≡ challenge_kamf ck.now ik.now autn.now plmn.now supi.now abba.now }
{
    let [a, b, c, d, e, f, ..] = *autn;
    let kausf = kausf(ck, ik, plmn, &[a, b, c, d, e, f]);
    kamf(&kseaf(&kausf, plmn), supi, abba)
}

// CK, then IK.
fn joined(ck: &[u8; 16], ik: &[u8; 16]) -> [u8; 32]
    ensures { result ≡ ck.now ++ ik.now }
{
    let mut key = [0; 32];
    let (front, back) = key.split_at_mut(16);
    front.copy_from_slice(ck);
    back.copy_from_slice(ik);
    key
}

/// The last 16 octets.
pub fn last_half(octets: &[u8; 32]) -> [u8; 16]
    ensures { result ≡ last_half octets.now }
{
    let (_, back) = octets.split_at(16);
    let mut half = [0; 16];
    half.copy_from_slice(back);
    half
}

// The digits as text.
fn text_of(digits: &Digits) -> ArrayVec<u8, 15>
    ensures { result.items ≡ ascii digits.now }
{
    let mut text = ArrayVec::new();
    for digit in digits.as_slice() {
        text.push(b'0' + *digit);
    }
    text
}
