//! Products in the field of AES.
ghost use Rattle.std.specs.Prelude.{◌≡◌};
ghost use Rattle.aes_cmac.specs.Field.{◌•◌};

// x^8 + x^4 + x^3 + x + 1 without its first summand.
const REDUCTION: u8 = 0x1b;

/// 2 times the octet, which is x times the element (FIPS 197 section 4.2).
#[tactic(auto, using(crate::proofs::AllOctets::twice))]
pub fn doubled(octet: u8) -> u8
    ensures { result ≡ 2 • octet }
{
    (octet << 1) ^ (octet >> 7) * REDUCTION
}

/// 3 times the octet.
#[tactic(auto, using(crate::proofs::AllOctets::thrice))]
pub fn tripled(octet: u8) -> u8
    ensures { result ≡ 3 • octet }
{
    doubled(octet) ^ octet
}
