//! Reading lists of operations.
ghost use Rattle.std.specs.Prelude.{◌≡◌, ◌≤◌, ◌+◌, ◌-◌, ◌&&◌, ◌^◌, ◌<◌, length, true, IfSome};
ghost use Rattle.nas_qos.specs.Operations.{first_operation, has_number, is_code, is_there_whole, operation_in, operation_size, ops_in, tail_in, is_tail, tail_octets};
ghost use Rattle.nas_qos.specs.Ranges.{is_operation_at, is_operation_of};
ghost use Rattle.nas_qos.specs.Reads.{Finds, ReadsOps};

use crate::filter::read_filters;
use crate::refusals::Unread;
use crate::{OpsRefusal, RuleOp, RuleOps};
use byteorder::{BigEndian, ByteOrder};
use std::alloc::Global;

// A list of operations has at most so many octets.
const MOST: usize = 2048;

/// The list of operations in the octets (QoS rules, TS 24.501 clause 9.11.4.13): of each the identifier of its rule, a length of
/// two octets, and what is done with the rule.
///
/// # Errors
///
/// `Syntax` exactly where the octets are no list of operations of at most 2,048 octets; or `Memory`.
pub fn read_ops(alloc: Global, octets: &[u8]) -> Result<RuleOps, OpsRefusal>
    ensures { ReadsOps result (ops_in octets.now) }
{
    let mut items = Vec::new(alloc);
    let mut rest = octets;
    while !rest.is_empty() {
        let at = octets.len() - rest.len();
        match first_operation(alloc, at, rest) {
            Ok(op) => {
                rest = rest.split_at(operation_size(rest)).1;
                match items.push(op) {
                    Ok(()) => {}
                    Err(_) => return Err(OpsRefusal::Memory),
                }
            }
            Err(Unread::Wrong) => return Err(OpsRefusal::Syntax { at }),
            Err(Unread::Memory) => return Err(OpsRefusal::Memory),
        }
    }
    Ok(RuleOps { items })
}

// How many octets the operation that stands first has.
fn operation_size(octets: &[u8]) -> usize
    requires { 3 ≤ length octets.now }
    ensures value { result ≡ operation_size octets.now }
    ensures limit { result < 2 ^ 17 }
{
    3 + BigEndian::read_u16(octets.split_at(1).1) as usize
}

// Whether the operation that stands first is there whole.
fn is_there_whole(octets: &[u8]) -> bool
    ensures { result ≡ is_there_whole octets.now }
{
    octets.len() >= 3 && operation_size(octets) <= octets.len()
}

// The operation that stands first, at this place in the list.
fn first_operation(alloc: Global, at: usize, octets: &[u8]) -> Result<RuleOp, Unread>
    requires { at + length octets.now < 2 ^ 64 }
    ensures { Finds (is_operation_at at octets.now) result (first_operation at octets.now) }
{
    let [id, ..] = octets else {
        return Err(Unread::Wrong);
    };
    if !is_there_whole(octets) {
        return Err(Unread::Wrong);
    }
    let size = operation_size(octets);
    if at + size > MOST || *id == 0 {
        return Err(Unread::Wrong);
    }
    read_operation(alloc, *id, octets.split_at(3).1.split_at(size - 3).0)
}

// Whether an operation has this code.
fn is_code(code: u8) -> bool
    ensures { result ≡ is_code code }
{
    0 < code && code < 7
}

// Whether an operation with this code can have so many filters.
fn has_number(code: u8, number: u8) -> bool
    ensures { result ≡ has_number code number }
{
    match code {
        2 | 6 => number == 0,
        _ => 0 < number && number < 16,
    }
}

// The tail that the octets are, where an operation with this code can end so: a precedence and a QFI, or none.
fn read_tail(code: u8, octets: &[u8]) -> Option<Option<(u8, u8)>>
    ensures value { result ≡ tail_in code octets.now }
    ensures whole { IfSome result (λ tail. (is_tail code tail ≡ true) × (length (tail_octets tail) ≡ length octets.now)) }
{
    match octets {
        [] if code != 1 => Some(None),
        [precedence, qfi] => Some(Some((*precedence, *qfi % 64))),
        _ => None,
    }
}

// The operation on this rule with these contents.
fn read_operation(alloc: Global, id: u8, contents: &[u8]) -> Result<RuleOp, Unread>
    requires { 0 < id }
    ensures { Finds (is_operation_of (length contents.now)) result (operation_in id contents.now) }
{
    let [first, octets @ ..] = contents else {
        return Err(Unread::Wrong);
    };
    let code = *first / 32;
    let number = *first % 16;
    if !is_code(code) || !has_number(code, number) {
        return Err(Unread::Wrong);
    }
    let (filters, size) = read_filters(alloc, number, code, octets)?;
    let Some(tail) = read_tail(code, octets.split_at(size).1) else {
        return Err(Unread::Wrong);
    };
    Ok(RuleOp {
        id,
        code,
        default: *first / 16 % 2 == 1,
        filters,
        tail,
    })
}
