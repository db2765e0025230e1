//! The components of packet filters.
ghost use Rattle.std.specs.Prelude.{◌≡◌, ◌≤◌, [], length, take, true, nat_eq, ◌&&◌, ◌↔◌, IsTrue, IfOk, IfSome};
ghost use Rattle.nas_qos.specs.Parts.{first_part, is_part, is_parts, part_of, part_size, parts_in, parts_octets, value_size};
ghost use Rattle.nas_qos.specs.Reads.{Finds};

use crate::refusals::Unread;
use crate::writing::{parts_octets, same_octets};
use byteorder::{BigEndian, ByteOrder};
use nas_base::Memory;
use std::alloc::Global;
use std::marker::Model;

/// A component of a packet filter (TS 24.501 clause 9.11.4.13). Local is the handset's side, remote the other.
#[derive(Clone, Copy)]
pub enum Part {
    /// Everything.
    All,
    /// Remote IPv4 addresses.
    Remote { address: [u8; 4], mask: [u8; 4] },
    /// Local IPv4 addresses.
    Local { address: [u8; 4], mask: [u8; 4] },
    /// A protocol, by its number.
    Protocol(u8),
    /// A local port.
    LocalPort(u16),
    /// A remote port.
    RemotePort(u16),
    /// Local ports, both ends of the range in it.
    LocalPorts { low: u16, high: u16 },
    /// Remote ports, both ends of the range in it.
    RemotePorts { low: u16, high: u16 },
}

/// Components in order, which are written as at most 255 octets.
#[derive(Drop)]
pub struct Parts {
    pub items: Vec<Part>,
}

impl Model for Parts {
    ghost use Rattle.std.specs.Prelude.{List, ◌≡◌, true};
    ghost use Rattle.nas_qos.specs.declared.part.Part.{Part};

    ghost Value = { List Part };

    ghost use Rattle.nas_qos.specs.Parts.{is_parts};

    ghost view = { λ p. p.items.items };

    ghost invariant = { λ p. is_parts p.items.items ≡ true };
}

impl Parts {
    /// No component.
    pub fn new(alloc: Global) -> Parts
        ensures { result ≡ [] }
    {
        Parts {
            items: Vec::new(alloc),
        }
    }

    /// The components in order.
    pub fn as_slice(&self) -> &[Part]
        ensures value { result.now ≡ self.now }
        ensures parts { is_parts result.now ≡ true }
    {
        self.items.as_slice()
    }

    /// Whether these are the same components in the same order.
    pub fn equals(&self, other: &Parts) -> bool
        ensures { IsTrue result ↔ (self.now ≡ other.now) }
    {
        let _items = &self.items;
        let _others = &other.items;
        same_octets(
            parts_octets(self).as_slice(),
            parts_octets(other).as_slice(),
        )
    }

    /// Equal components.
    pub fn copy(&self, alloc: Global) -> Result<Parts, Memory>
        ensures { IfOk result (λ parts. parts ≡ self.now) }
    {
        match self.items.as_slice().to_vec(alloc) {
            Ok(items) => Ok(Parts { items }),
            Err(_) => Err(Memory),
        }
    }
}

// How many octets the value of a component of this type has.
fn value_size(kind: u8) -> usize
    ensures value { result ≡ value_size kind }
    ensures limit { result ≤ 8 }
{
    match kind {
        0x10 | 0x11 => 8,
        0x30 => 1,
        0x40 | 0x50 => 2,
        0x41 | 0x51 => 4,
        _ => 0,
    }
}

// The first four octets.
fn four(octets: &[u8]) -> [u8; 4]
    requires { 4 ≤ length octets.now }
    ensures value { result ≡ take 4 octets.now }
    ensures size { length result ≡ 4 }
{
    [octets[0], octets[1], octets[2], octets[3]]
}

// The component of this type whose value stands first.
fn part_of(kind: u8, octets: &[u8]) -> Option<Part>
    requires { value_size kind ≤ length octets.now }
    ensures value { result ≡ part_of kind octets.now }
    ensures whole { IfSome result (λ part. is_part part ≡ true) }
{
    match kind {
        0x01 => Some(Part::All),
        0x10 => Some(Part::Remote {
            address: four(octets),
            mask: four(octets.split_at(4).1),
        }),
        0x11 => Some(Part::Local {
            address: four(octets),
            mask: four(octets.split_at(4).1),
        }),
        0x30 => Some(Part::Protocol(octets[0])),
        0x40 => Some(Part::LocalPort(BigEndian::read_u16(octets))),
        0x50 => Some(Part::RemotePort(BigEndian::read_u16(octets))),
        0x41 => Some(Part::LocalPorts {
            low: BigEndian::read_u16(octets),
            high: BigEndian::read_u16(octets.split_at(2).1),
        }),
        0x51 => Some(Part::RemotePorts {
            low: BigEndian::read_u16(octets),
            high: BigEndian::read_u16(octets.split_at(2).1),
        }),
        _ => None,
    }
}

// The component that stands first.
fn first_part(octets: &[u8]) -> Option<Part>
    ensures value { result ≡ first_part octets.now }
    ensures whole { IfSome result (λ part. is_part part ≡ true) }
{
    let [kind, value @ ..] = octets else {
        return None;
    };
    if value.len() < value_size(*kind) {
        return None;
    }
    part_of(*kind, value)
}

// How many octets the component that stands first has.
fn part_size(octets: &[u8]) -> usize
    ensures { result ≡ part_size octets.now }
{
    match octets {
        [] => 1,
        [kind, ..] => 1 + value_size(*kind),
    }
}

// The components that are the contents of a filter.
pub(crate) fn read_parts(alloc: Global, octets: &[u8]) -> Result<Parts, Unread>
    requires { length octets.now ≤ 255 }
    ensures { Finds (λ parts. is_parts parts && nat_eq (length (parts_octets parts)) (length octets.now)) result (parts_in octets.now) }
{
    let mut items = Vec::new(alloc);
    let mut rest = octets;
    while !rest.is_empty() {
        let Some(part) = first_part(rest) else {
            return Err(Unread::Wrong);
        };
        rest = rest.split_at(part_size(rest)).1;
        match items.push(part) {
            Ok(()) => {}
            Err(_) => return Err(Unread::Memory),
        }
    }
    Ok(Parts { items })
}
