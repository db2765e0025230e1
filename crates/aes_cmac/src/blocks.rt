//! Octets added to octets.
ghost use Rattle.std.specs.Prelude.{◌≡◌, ◌≤◌, length};
ghost use Rattle.aes_cmac.specs.Blocks.{xor_of};

/// The octets of a block.
pub type Block = [u8; 16];

/// A block of zeros.
pub const ZERO_BLOCK: Block = [0; 16];

/// Adds to each octet the one of the mask in its place, as far as there are octets.
pub fn add_mask(octets: &mut [u8], mask: &[u8])
    requires { length octets.old ≤ length mask.now }
    ensures { octets.new ≡ xor_of octets.old mask.now }
{
    for (n, octet) in octets.iter_mut().enumerate() {
        *octet ^= mask[n];
    }
}
