//! Numbers of several octets, the high octet first.
ghost use Rattle.std.specs.Prelude.{◌≡◌};
ghost use Rattle.byteorder.specs.Endian.{big_bytes};

use byteorder::{BigEndian, ByteOrder};

/// The octets of a number of 16 bits, its high octet first.
pub fn in_two_octets(number: u16) -> [u8; 2]
    ensures { result ≡ big_bytes 2 number }
{
    let mut octets = [0; 2];
    BigEndian::write_u16(&mut octets, number);
    octets
}

/// The octets of a number of 32 bits, its high octet first.
pub fn in_four_octets(number: u32) -> [u8; 4]
    ensures { result ≡ big_bytes 4 number }
{
    let mut octets = [0; 4];
    BigEndian::write_u32(&mut octets, number);
    octets
}
