//! HMAC with SHA-256 (RFC 2104).
ghost use Rattle.std.specs.Prelude.{◌≡◌, ◌≤◌, ℕ, List, [], ◌++◌, length};
ghost use Rattle.key_chain.specs.Hmac.{hmac, key_block, masked, padded};

use sha2::{Digest, Sha256};

// The octets of a block of SHA-256.
const BLOCK: usize = 64;

// What the key is masked with for the inner and for the outer hash.
const INNER_PAD: u8 = 0x36;

const OUTER_PAD: u8 = 0x5c;

/// The HMAC-SHA-256 of the octets under a key of any length (RFC 2104 section 2).
#[tactic(auto, unfolding(crate::specs::Hmac::hmac))]
pub fn hmac256(key: &[u8], octets: &[u8]) -> [u8; 32]
    ensures { result ≡ hmac key.now octets.now }
{
    let mut mac = Mac::new(key);
    mac.feed(octets);
    mac.finish()
}

/// An HMAC-SHA-256 whose text comes in pieces.
#[derive(Drop)]
pub struct Mac {
    block: [u8; BLOCK],
    inner: Sha256,
}

impl Mac {
    ghost use Rattle.key_chain.specs.Mac.{HoldsText};

    /// A MAC under this key, of the empty text so far.
    pub fn new(key: &[u8]) -> Mac
        ensures { HoldsText result key.now [] }
    {
        let block = key_block(key);
        let mut inner = Sha256::new();
        inner.update(&masked(block, INNER_PAD));
        Mac { block, inner }
    }

    /// The octets are the next of the text.
    pub fn feed(&mut self, octets: &[u8])
        ensures { (key text : List ℕ) → HoldsText self.old key text → HoldsText self.new key (text ++ octets.now) }
    {
        self.inner.update(octets);
    }

    /// The MAC of the text.
    #[tactic(auto, unfolding(crate::specs::Hmac::hmac))]
    pub fn finish(self) -> [u8; 32]
        ensures { (key text : List ℕ) → HoldsText self key text → result ≡ hmac key text }
    {
        let Mac { block, inner } = self;
        let digest = inner.finalize();
        let mut outer = Sha256::new();
        outer.update(&masked(block, OUTER_PAD));
        outer.update(&digest);
        outer.finalize()
    }
}

// The key with zeros behind it up to a block; a longer one is hashed first.
fn key_block(key: &[u8]) -> [u8; BLOCK]
    ensures { result ≡ key_block key.now }
{
    if key.len() > BLOCK {
        padded(&Sha256::digest(key))
    } else {
        padded(key)
    }
}

// The key with zeros behind it up to a block.
#[tactic(auto, using(crate::proofs::BlockLaws::zeros_left))]
fn padded(key: &[u8]) -> [u8; BLOCK]
    requires { length key.now ≤ 64 }
    ensures { result ≡ padded key.now }
{
    let mut block = [0; BLOCK];
    let (front, _) = block.split_at_mut(key.len());
    front.copy_from_slice(key);
    block
}

// Each octet XOR the pad.
#[tactic(auto, using(crate::proofs::BlockLaws::masked_more))]
fn masked(mut block: [u8; BLOCK], pad: u8) -> [u8; BLOCK]
    ensures { result ≡ masked pad block }
{
    for octet in block.iter_mut() {
        *octet ^= pad;
    }
    block
}
