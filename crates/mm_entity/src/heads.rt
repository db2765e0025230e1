//! What octets are told by before they are read as a message.
ghost use Rattle.std.specs.Prelude.{◌≡◌};
ghost use Rattle.mm_entity.specs.Heads.{header_of, inside, is_too_many, octet_at, type_of};

/// 5GMM's extended protocol discriminator (TS 24.501 clause 9.2).
pub const EPD_5GMM: u8 = 0x7e;

/// The message type of 5GMM STATUS, which is never answered (TS 24.501 clause 7.5.1).
pub const FIVE_GMM_STATUS: u8 = 0x64;

// Octets of a message at most, of a frame as of a plain one.
const LONGEST: usize = 4096;

/// An octet, 0 where there is none.
pub fn octet_at(octets: &[u8], index: usize) -> u8
    ensures { result ≡ octet_at octets.now index }
{
    match octets.get(index) {
        Some(octet) => *octet,
        None => 0,
    }
}

/// The security header type, in the low half of the second octet (TS 24.501 clause 9.3); 0 where there is none.
pub fn header_type(octets: &[u8]) -> u8
    ensures { result ≡ header_of octets.now }
{
    octet_at(octets, 1) % 16
}

/// The message type of plain octets (TS 24.501 clause 9.7); 0 where there is none.
pub fn message_type(octets: &[u8]) -> u8
    ensures { result ≡ type_of octets.now }
{
    octet_at(octets, 2)
}

/// Whether there are more than the 4,096 octets that a message has at most.
pub fn is_too_long(octets: &[u8]) -> bool
    ensures { result ≡ is_too_many octets.now }
{
    octets.len() > LONGEST
}

/// What stands behind the head of a frame, which is of seven octets (TS 24.501 clause 9.1.1).
pub fn inside(octets: &[u8]) -> &[u8]
    ensures { result.now ≡ inside octets.now }
{
    match octets.get(7..) {
        Some(inside) => inside,
        None => &[],
    }
}
