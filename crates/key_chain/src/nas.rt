//! The keys that NAS messages are protected by (TS 33.501 Annex A.8).
ghost use Rattle.std.specs.Prelude.{◌≡◌};
ghost use Rattle.key_chain.specs.Keys.{nas_key, nas_keys};

use crate::kdf2;
use crate::keys::last_half;

// The value of FC for an algorithm's key.
const FOR_ALGORITHM: u8 = 0x69;

// The algorithm type distinguishers N-NAS-enc-alg and N-NAS-int-alg.
const CIPHERING: u8 = 1;

const INTEGRITY: u8 = 2;

/// The keys of a NAS security context.
#[derive(Clone, Copy, PartialEq, Eq)]
pub struct NasKeys {
    /// KNASenc, the key that messages are ciphered by.
    pub enc: [u8; 16],
    /// KNASint, the key of their MACs.
    pub int: [u8; 16],
}

/// The NAS keys for the ciphering algorithm 5G-EA of the number `nea` and the integrity algorithm 5G-IA of the number `nia`
/// (TS 33.501 Annex A.8).
pub fn nas_keys(kamf: &[u8; 32], nea: u8, nia: u8) -> NasKeys
    ensures { result ≡ nas_keys kamf.now nea nia }
{
    NasKeys {
        enc: nas_key(kamf, CIPHERING, nea),
        int: nas_key(kamf, INTEGRITY, nia),
    }
}

// The key of one algorithm.
#[tactic(auto, unfolding(crate::specs::Keys::nas_key))]
fn nas_key(kamf: &[u8; 32], distinguisher: u8, algorithm: u8) -> [u8; 16]
    ensures { result ≡ nas_key kamf.now distinguisher algorithm }
{
    last_half(&kdf2(kamf, FOR_ALGORITHM, &[distinguisher], &[algorithm]))
}
