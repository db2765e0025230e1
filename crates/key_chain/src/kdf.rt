//! The generic key derivation function (TS 33.220 Annex B.2).
ghost use Rattle.std.specs.Prelude.{◌≡◌, ◌≤◌, ℕ, List, [], ◌∷◌, ◌++◌, length};
ghost use Rattle.key_chain.specs.Kdf.{counted, kdf};
ghost use Rattle.key_chain.specs.Mac.{HoldsText};

use crate::hmac::Mac;

/// HMAC-SHA-256 of the key over FC, P0 and L0, the length of P0 in two octets (TS 33.220 Annex B.2). The octet `fc` tells
/// what the result is for; a parameter has at most 65,535 octets.
#[tactic(auto, unfolding(crate::specs::Kdf::kdf))]
pub fn kdf1(key: &[u8], fc: u8, p0: &[u8]) -> [u8; 32]
    requires { length p0.now ≤ 65535 }
    ensures { result ≡ kdf key.now fc (p0.now ∷ []) }
{
    let mut mac = Mac::new(key);
    mac.feed(&[fc]);
    feed_counted(&mut mac, p0);
    mac.finish()
}

/// HMAC-SHA-256 of the key over FC, P0, L0, P1, L1 (TS 33.220 Annex B.2), for parameters of at most 65,535 octets.
#[tactic(auto, unfolding(crate::specs::Kdf::kdf))]
pub fn kdf2(key: &[u8], fc: u8, p0: &[u8], p1: &[u8]) -> [u8; 32]
    requires p0 { length p0.now ≤ 65535 }
    requires p1 { length p1.now ≤ 65535 }
    ensures { result ≡ kdf key.now fc (p0.now ∷ p1.now ∷ []) }
{
    let mut mac = Mac::new(key);
    mac.feed(&[fc]);
    feed_counted(&mut mac, p0);
    feed_counted(&mut mac, p1);
    mac.finish()
}

/// HMAC-SHA-256 of the key over FC, P0, L0, P1, L1, P2, L2 (TS 33.220 Annex B.2), for parameters of at most 65,535 octets.
#[tactic(auto, unfolding(crate::specs::Kdf::kdf))]
pub fn kdf3(key: &[u8], fc: u8, p0: &[u8], p1: &[u8], p2: &[u8]) -> [u8; 32]
    requires p0 { length p0.now ≤ 65535 }
    requires p1 { length p1.now ≤ 65535 }
    requires p2 { length p2.now ≤ 65535 }
    ensures { result ≡ kdf key.now fc (p0.now ∷ p1.now ∷ p2.now ∷ []) }
{
    let mut mac = Mac::new(key);
    mac.feed(&[fc]);
    feed_counted(&mut mac, p0);
    feed_counted(&mut mac, p1);
    feed_counted(&mut mac, p2);
    mac.finish()
}

// A parameter, then its length in two octets, the high one first.
fn feed_counted(mac: &mut Mac, parameter: &[u8])
    requires { length parameter.now ≤ 65535 }
    ensures { (key text : List ℕ) → HoldsText mac.old key text → HoldsText mac.new key (text ++ counted parameter.now) }
{
    mac.feed(parameter);
    mac.feed(&(parameter.len() as u16).to_be_bytes());
}
