//! The address of a session.
ghost use Rattle.std.specs.Prelude.{◌≡◌, ◌≤◌, length};
ghost use Rattle.nas_base.specs.Writing.{Writes};
ghost use Rattle.nas_elements.specs.Address.{address_front, address_in, address_octets, v4_in, v4v6_in, v6_in};
ghost use Rattle.nas_elements.specs.Reads.{Reads};

use crate::Wrong;
use arrayvec::ArrayVec;
use nas_base::{Full, Writer};

// The kinds of addresses.
const IPV4: u8 = 1;

const IPV6: u8 = 2;

const IPV4V6: u8 = 3;

/// A PDU address (TS 24.501 clause 9.11.4.10): an IPv4 address, the interface identifier of an IPv6 address, or this identifier
/// and then an IPv4 address.
#[derive(Clone, Copy, PartialEq, Eq)]
pub enum Address {
    V4([u8; 4]),
    V6([u8; 8]),
    V4V6([u8; 8], [u8; 4]),
}

impl Address {
    /// The address in the octets. Bits 4 to 8 of the first are passed over.
    ///
    /// # Errors
    ///
    /// `Wrong` exactly where bits 1 to 3 of the first octet tell no kind of address, or where there are not as many octets as
    /// an address of the kind has.
    #[tactic(auto, using(crate::proofs::AddressFronts::wrong_address))]
    pub fn read(octets: &[u8]) -> Result<Address, Wrong>
        ensures { Reads address_in octets.now result }
    {
        match Address::from_slice(octets) {
            Some(address) => Ok(address),
            None => Err(Wrong {
                at: front_of_address(octets),
            }),
        }
    }

    /// Writes its octets: 5, 9 or 13.
    ///
    /// # Errors
    ///
    /// `Full` exactly where they don't fit; nothing is then written.
    pub fn write(&self, out: &mut Writer) -> Result<(), Full>
        ensures { Writes (address_octets self.now) out.old out.new result }
    {
        out.put(self.octets().as_slice())
    }

    /// Its octets: 5, 9 or 13.
    pub fn octets(&self) -> ArrayVec<u8, 13>
        ensures { result.items ≡ address_octets self.now }
    {
        let mut octets = ArrayVec::new();
        match self {
            Address::V4(v4) => {
                octets.push(IPV4);
                octets.try_extend_from_slice(v4).unwrap();
            }
            Address::V6(v6) => {
                octets.push(IPV6);
                octets.try_extend_from_slice(v6).unwrap();
            }
            Address::V4V6(v6, v4) => {
                octets.push(IPV4V6);
                octets.try_extend_from_slice(v6).unwrap();
                octets.try_extend_from_slice(v4).unwrap();
            }
        }
        octets
    }

    /// The number of its octets: 5, 9 or 13.
    pub fn size(&self) -> usize
        ensures value { result ≡ length (address_octets self.now) }
        ensures limit { result ≤ 13 }
    {
        self.octets().len()
    }

    // The address in the octets, if there is one.
    fn from_slice(octets: &[u8]) -> Option<Address>
        ensures { result ≡ address_in octets.now }
    {
        let [kind, behind @ ..] = octets else {
            return None;
        };
        match *kind % 8 {
            IPV4 => v4_of(behind),
            IPV6 => v6_of(behind),
            IPV4V6 => v4v6_of(behind),
            _ => None,
        }
    }
}

// An IPv4 address, an interface identifier, or both, where there are so many octets as they have.
fn v4_of(octets: &[u8]) -> Option<Address>
    ensures { result ≡ v4_in octets.now }
{
    match octets.try_into() {
        Ok(v4) => Some(Address::V4(v4)),
        Err(_) => None,
    }
}

fn v6_of(octets: &[u8]) -> Option<Address>
    ensures { result ≡ v6_in octets.now }
{
    match octets.try_into() {
        Ok(v6) => Some(Address::V6(v6)),
        Err(_) => None,
    }
}

fn v4v6_of(octets: &[u8]) -> Option<Address>
    ensures { result ≡ v4v6_in octets.now }
{
    if octets.len() != 12 {
        return None;
    }
    let (v6, v4) = octets.split_at(8);
    Some(Address::V4V6(v6.try_into().unwrap(), v4.try_into().unwrap()))
}

// How many octets are the front of an address's.
fn front_of_address(octets: &[u8]) -> usize
    ensures { result ≡ address_front octets.now }
{
    let [kind, ..] = octets else {
        return 0;
    };
    let size = match *kind % 8 {
        IPV4 => 5,
        IPV6 => 9,
        IPV4V6 => 13,
        _ => 0,
    };
    octets.len().min(size)
}
