//! Writing lists of operations.
ghost use Rattle.std.specs.Prelude.{◌≡◌, ◌≤◌, ◌+◌, ◌∷◌, ◌++◌, ◌↔◌, IsTrue, length};
ghost use Rattle.byteorder.specs.Endian.{big_bytes};
ghost use Rattle.nas_base.specs.Writing.{Writes};
ghost use Rattle.nas_qos.specs.Filters.{filter_octets, filters_octets};
ghost use Rattle.nas_qos.specs.Operations.{contents, first_octet, operation_octets, ops_octets};
ghost use Rattle.nas_qos.specs.Parts.{part_octets, parts_octets};

use crate::filter::DELETE_FILTERS;
use crate::{Filter, Part, Parts, RuleOp, RuleOps};
use arrayvec::ArrayVec;
use byteorder::{BigEndian, ByteOrder};
use nas_base::{Full, Writer};

/// Writes the operations one after the other, each behind the identifier of its rule and a length of two octets. Bits that have no
/// meaning are written 0.
///
/// # Errors
///
/// `Full` exactly where they don't all fit; nothing is then written.
pub fn write_ops(ops: &RuleOps, out: &mut Writer) -> Result<(), Full>
    ensures { Writes (ops_octets ops.now) out.old out.new result }
{
    out.put(ops_octets(ops).as_slice())
}

// Whether these are the same octets.
pub(crate) fn same_octets(octets: &[u8], others: &[u8]) -> bool
    ensures { IsTrue result ↔ (octets.now ≡ others.now) }
{
    octets == others
}

// What operations are written as.
pub(crate) fn ops_octets(ops: &RuleOps) -> ArrayVec<u8, 2048>
    ensures { result.items ≡ ops_octets ops.now }
{
    let mut octets = ArrayVec::new();
    for op in ops.as_slice() {
        put_operation(op, &mut octets);
    }
    octets
}

// Appends what an operation is written as.
fn put_operation(op: &RuleOp, out: &mut ArrayVec<u8, 2048>)
    requires { length out.old.items + length (operation_octets op.now) ≤ 2048 }
    ensures { out.new.items ≡ out.old.items ++ operation_octets op.now }
{
    let contents = contents(op);
    let mut size = [0; 2];
    BigEndian::write_u16(&mut size, contents.len() as u16);
    out.push(op.id);
    put(&size, out);
    put(contents.as_slice(), out);
}

// Appends octets.
fn put(octets: &[u8], out: &mut ArrayVec<u8, 2048>)
    requires { length out.old.items + length octets.now ≤ 2048 }
    ensures { out.new.items ≡ out.old.items ++ octets.now }
{
    out.try_extend_from_slice(octets).unwrap();
}

// The contents of an operation.
fn contents(op: &RuleOp) -> ArrayVec<u8, 2048>
    requires { length (contents op.now) ≤ 2048 }
    ensures { result.items ≡ contents op.now }
{
    let mut octets = ArrayVec::new();
    octets.push(first_octet(op));
    put_filters(op.code, op.filters.as_slice(), &mut octets);
    if let Some((precedence, qfi)) = op.tail {
        octets.push(precedence);
        octets.push(qfi);
    }
    octets
}

// The first octet of an operation's contents.
fn first_octet(op: &RuleOp) -> u8
    ensures { result ≡ first_octet op.now }
{
    let default = if op.default { 16 } else { 0 };
    32 * op.code + default + op.filters.as_slice().len() as u8
}

// Appends what filters are written as in an operation with this code.
fn put_filters(code: u8, filters: &[Filter], out: &mut ArrayVec<u8, 2048>)
    requires { length out.old.items + length (filters_octets code filters.now) ≤ 2048 }
    ensures { out.new.items ≡ out.old.items ++ filters_octets code filters.now }
{
    for filter in filters {
        put_filter(code, filter, out);
    }
}

// Appends what a filter is written as in an operation with this code.
fn put_filter(code: u8, filter: &Filter, out: &mut ArrayVec<u8, 2048>)
    requires { length out.old.items + length (filter_octets code filter.now) ≤ 2048 }
    ensures { out.new.items ≡ out.old.items ++ filter_octets code filter.now }
{
    if code == DELETE_FILTERS {
        out.push(filter.id);
        return;
    }
    let parts = parts_octets(&filter.parts);
    out.push(16 * filter.direction + filter.id);
    out.push(parts.len() as u8);
    put(parts.as_slice(), out);
}

// What components are written as.
pub(crate) fn parts_octets(parts: &Parts) -> ArrayVec<u8, 255>
    ensures { result.items ≡ parts_octets parts.now }
{
    let mut octets = ArrayVec::new();
    for part in parts.as_slice() {
        put_part(part, &mut octets);
    }
    octets
}

// Appends what a component is written as.
fn put_part(part: &Part, out: &mut ArrayVec<u8, 255>)
    requires { length out.old.items + length (part_octets part.now) ≤ 255 }
    ensures { out.new.items ≡ out.old.items ++ part_octets part.now }
{
    match part {
        Part::All => out.push(0x01),
        Part::Remote { address, mask } => put_addresses(0x10, address, mask, out),
        Part::Local { address, mask } => put_addresses(0x11, address, mask, out),
        Part::Protocol(protocol) => {
            out.push(0x30);
            out.push(*protocol);
        }
        Part::LocalPort(port) => put_port(0x40, *port, out),
        Part::RemotePort(port) => put_port(0x50, *port, out),
        Part::LocalPorts { low, high } => put_ports(0x41, *low, *high, out),
        Part::RemotePorts { low, high } => put_ports(0x51, *low, *high, out),
    }
}

// Appends a component's type, an address and a mask.
fn put_addresses(kind: u8, address: &[u8], mask: &[u8], out: &mut ArrayVec<u8, 255>)
    requires { length out.old.items + (1 + length address.now + length mask.now) ≤ 255 }
    ensures { out.new.items ≡ out.old.items ++ kind ∷ (address.now ++ mask.now) }
{
    out.push(kind);
    out.try_extend_from_slice(address).unwrap();
    out.try_extend_from_slice(mask).unwrap();
}

// Appends a component's type and a port.
fn put_port(kind: u8, port: u16, out: &mut ArrayVec<u8, 255>)
    requires { length out.old.items + 3 ≤ 255 }
    ensures { out.new.items ≡ out.old.items ++ kind ∷ big_bytes 2 port }
{
    let mut octets = [0; 2];
    BigEndian::write_u16(&mut octets, port);
    out.push(kind);
    out.try_extend_from_slice(&octets).unwrap();
}

// Appends a component's type and both ends of a range of ports.
fn put_ports(kind: u8, low: u16, high: u16, out: &mut ArrayVec<u8, 255>)
    requires { length out.old.items + 5 ≤ 255 }
    ensures { out.new.items ≡ out.old.items ++ kind ∷ (big_bytes 2 low ++ big_bytes 2 high) }
{
    let mut octets = [0; 4];
    BigEndian::write_u16(&mut octets, low);
    BigEndian::write_u16(&mut octets[2..], high);
    out.push(kind);
    out.try_extend_from_slice(&octets).unwrap();
}
