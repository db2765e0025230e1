//! Packet filters.
ghost use Rattle.std.specs.Prelude.{◌≡◌, ◌≤◌, ◌<◌, [], ◌∷◌, ◌++◌, length, true, false, ◌&&◌, ◌↔◌, IsTrue, IfOk, OnOk};
ghost use Rattle.std.specs.List.{list_any};
ghost use Rattle.nas_qos.specs.Applying.{remaining};
ghost use Rattle.nas_qos.specs.Filters.{differing, filter_size, filters_in, first_filter, ids_differ, is_filter, is_filters, names, whole_filter};
ghost use Rattle.nas_qos.specs.Ranges.{are_filters_of, is_filter_of, is_whole};
ghost use Rattle.nas_qos.specs.Reads.{Finds};

use crate::Parts;
use crate::part::read_parts;
use crate::refusals::Unread;
use nas_base::Memory;
use std::alloc::Global;
use std::marker::Model;

// The code of the operation that names filters by their identifiers alone.
pub(crate) const DELETE_FILTERS: u8 = 5;

/// A packet filter: an identifier of 0 to 15, a direction (1 down, 2 up, 3 both) and at least one component (TS 24.501 clause
/// 9.11.4.13). Where an operation only names a filter its direction is 0, and it has no component.
#[derive(Drop)]
pub struct Filter {
    pub id: u8,
    pub direction: u8,
    pub parts: Parts,
}

impl Model for Filter {
    ghost use Rattle.std.specs.Prelude.{◌≡◌, true};
    ghost use Rattle.nas_qos.specs.Filters.{PacketFilter, is_filter};

    ghost Value = { PacketFilter };

    ghost view = { λ f. record { id = f.id; direction = f.direction; parts = f.parts } };

    ghost invariant = { λ f. is_filter (record { id = f.id; direction = f.direction; parts = f.parts }) ≡ true };
}

/// Filters in order, no two of which have one identifier.
#[derive(Drop)]
pub struct Filters {
    pub items: Vec<Filter>,
}

impl Model for Filters {
    ghost use Rattle.std.specs.Prelude.{List, ◌≡◌, true};
    ghost use Rattle.nas_qos.specs.Filters.{PacketFilter, is_filters};

    ghost Value = { List PacketFilter };

    ghost view = { λ f. f.items.items };

    ghost invariant = { λ f. is_filters f.items.items ≡ true };
}

impl Filter {
    /// Whether this is the same filter.
    pub fn equals(&self, other: &Filter) -> bool
        ensures { IsTrue result ↔ (self.now ≡ other.now) }
    {
        self.id == other.id && self.direction == other.direction && self.parts.equals(&other.parts)
    }

    /// An equal filter.
    pub fn copy(&self, alloc: Global) -> Result<Filter, Memory>
        ensures { IfOk result (λ filter. filter ≡ self.now) }
    {
        let parts = self.parts.copy(alloc)?;
        Ok(Filter {
            id: self.id,
            direction: self.direction,
            parts,
        })
    }
}

impl Filters {
    /// No filter.
    pub fn new(alloc: Global) -> Filters
        ensures { result ≡ [] }
    {
        Filters {
            items: Vec::new(alloc),
        }
    }

    /// Whether these are the same filters in the same order.
    pub fn equals(&self, other: &Filters) -> bool
        ensures { IsTrue result ↔ (self.now ≡ other.now) }
    {
        same(self.as_slice(), other.as_slice())
    }

    /// Equal filters.
    pub fn copy(&self, alloc: Global) -> Result<Filters, Memory>
        ensures { IfOk result (λ filters. filters ≡ self.now) }
    {
        let mut items = Vec::new(alloc);
        append(alloc, self.as_slice(), &mut items)?;
        Ok(Filters { items })
    }

    /// The filters in order.
    pub fn as_slice(&self) -> &[Filter]
        ensures value { result.now ≡ self.now }
        ensures filters { is_filters result.now ≡ true }
    {
        self.items.as_slice()
    }
}

// Whether these are the same filters in the same order.
fn same(filters: &[Filter], others: &[Filter]) -> bool
    ensures { IsTrue result ↔ (filters.now ≡ others.now) }
{
    match (filters, others) {
        ([], []) => true,
        ([filter, rest @ ..], [other, more @ ..]) => filter.equals(other) && same(rest, more),
        _ => false,
    }
}

// Appends a copy of the filter. After want of memory the list is of no use.
fn push_copy(alloc: Global, filter: &Filter, items: &mut Vec<Filter>) -> Result<(), Memory>
    ensures { OnOk result (items.new.items ≡ items.old.items ++ filter.now ∷ []) }
{
    let copy = filter.copy(alloc)?;
    match items.push(copy) {
        Ok(()) => Ok(()),
        Err(_) => Err(Memory),
    }
}

// Appends copies of the filters. After want of memory the list is of no use.
fn append(alloc: Global, filters: &[Filter], items: &mut Vec<Filter>) -> Result<(), Memory>
    ensures { OnOk result (items.new.items ≡ items.old.items ++ filters.now) }
{
    for filter in filters {
        push_copy(alloc, filter, items)?;
    }
    Ok(())
}

// Appends copies of the filters but those that have an identifier of these. After want of memory the list is of no use.
fn append_remaining(
    alloc: Global,
    gone: &[Filter],
    filters: &[Filter],
    items: &mut Vec<Filter>,
) -> Result<(), Memory>
    ensures { OnOk result (items.new.items ≡ items.old.items ++ remaining gone.now filters.now) }
{
    for filter in filters {
        if names(filter.id, gone) {
            continue;
        }
        push_copy(alloc, filter, items)?;
    }
    Ok(())
}

// Filters and others behind them, which have other identifiers.
pub(crate) fn joined(alloc: Global, there: &Filters, more: &Filters) -> Result<Filters, Memory>
    requires { list_any (λ f. names f.id there.now) more.now ≡ false }
    ensures { IfOk result (λ filters. filters ≡ there.now ++ more.now) }
{
    let mut items = Vec::new(alloc);
    append(alloc, there.as_slice(), &mut items)?;
    append(alloc, more.as_slice(), &mut items)?;
    Ok(Filters { items })
}

// The filters but those that have an identifier of these.
pub(crate) fn remaining(
    alloc: Global,
    gone: &[Filter],
    filters: &Filters,
) -> Result<Filters, Memory>
    ensures { IfOk result (λ left. left ≡ remaining gone.now filters.now) }
{
    let mut items = Vec::new(alloc);
    append_remaining(alloc, gone, filters.as_slice(), &mut items)?;
    Ok(Filters { items })
}

// Whether one of the filters has this identifier.
pub(crate) fn names(id: u8, filters: &[Filter]) -> bool
    ensures { result ≡ names id filters.now }
{
    filters.iter().any(|filter| filter.id == id)
}

// Whether no identifier occurs twice.
fn ids_differ(filters: &[Filter]) -> bool
    ensures { result ≡ ids_differ filters.now }
{
    match filters {
        [] => true,
        [filter, rest @ ..] => !names(filter.id, rest) && ids_differ(rest),
    }
}

// How many octets the filter that stands first has.
fn filter_size(code: u8, octets: &[u8]) -> usize
    ensures { result ≡ filter_size code octets.now }
{
    match octets {
        _ if code == DELETE_FILTERS => 1,
        [_, size, ..] => 2 + *size as usize,
        _ => 2,
    }
}

// The filter of this first octet and these contents.
fn read_whole(alloc: Global, first: u8, contents: &[u8]) -> Result<Filter, Unread>
    requires { length contents.now ≤ 255 }
    ensures { Finds (is_whole contents.now) result (whole_filter first contents.now) }
{
    let direction = first / 16 % 4;
    if direction == 0 || contents.is_empty() {
        return Err(Unread::Wrong);
    }
    let parts = read_parts(alloc, contents)?;
    Ok(Filter {
        id: first % 16,
        direction,
        parts,
    })
}

// The filter that stands first in an operation with this code.
fn first_filter(alloc: Global, code: u8, octets: &[u8]) -> Result<Filter, Unread>
    ensures { Finds (is_filter_of code octets.now) result (first_filter code octets.now) }
{
    if octets.len() < filter_size(code, octets) {
        return Err(Unread::Wrong);
    }
    if code == DELETE_FILTERS {
        return Ok(Filter {
            id: octets[0] % 16,
            direction: 0,
            parts: Parts::new(alloc),
        });
    }
    let size = octets[1] as usize;
    read_whole(alloc, octets[0], octets.split_at(2).1.split_at(size).0)
}

// The first so many filters of an operation with this code, and how many octets they have.
pub(crate) fn read_filters(
    alloc: Global,
    number: u8,
    code: u8,
    octets: &[u8],
) -> Result<(Filters, usize), Unread>
    ensures { Finds (are_filters_of number code octets.now) result (differing (filters_in number code octets.now)) }
{
    let mut items = Vec::new(alloc);
    let mut size = 0;
    for _done in 0..number {
        let rest = octets.split_at(size).1;
        let filter = first_filter(alloc, code, rest)?;
        size += filter_size(code, rest);
        match items.push(filter) {
            Ok(()) => {}
            Err(_) => return Err(Unread::Memory),
        }
    }
    if !ids_differ(items.as_slice()) {
        return Err(Unread::Wrong);
    }
    Ok((Filters { items }, size))
}
