//! Finding the elements of a message.
ghost use Rattle.std.specs.Prelude.{◌≡◌, map, option_map};
ghost use Rattle.nas_base.specs.Slots.{all_noted, noted, vacant};
ghost use Rattle.nas_base.specs.Walking.{elements_in, firsts, value_of};

use crate::Shape;
use crate::head::head_of;
use arrayvec::ArrayVec;
use std::marker::Model;

/// The elements that were found. They borrow the octets that they were found in.
#[derive(Drop)]
pub struct Elements<'a> {
    slots: ArrayVec<Slot<'a>, 32>,
}

impl<'a> Model for Elements<'a> {
    ghost use Rattle.std.specs.Prelude.{List};
    ghost use Rattle.nas_base.specs.Slots.{taken};
    ghost use Rattle.nas_base.specs.Walking.{Element};

    ghost Value = { List Element };

    ghost view = { λ e. taken e.slots.items };
}

// A place for the first element of a row.
#[derive(Default, Drop)]
struct Slot<'a> {
    iei: u8,
    value: Option<&'a [u8]>,
}

impl<'a> Model for Slot<'a> {
    ghost use Rattle.std.specs.Prelude.{option_map};
    ghost use Rattle.nas_base.specs.Slots.{SlotParts};

    ghost Value = { SlotParts };

    ghost view = { λ s. record { iei = s.iei; value = option_map (λ v. v.now) s.value } };
}

impl<'a> Slot<'a> {
    // An element takes a place of its identifier that is vacant.
    fn note(&mut self, iei: u8, value: &'a [u8])
        ensures { self.new ≡ noted iei value.now self.old }
    {
        if self.iei == iei && self.value.is_none() {
            self.value = Some(value);
        }
    }
}

/// The first element of each row of the shape, wherever it stands among the octets. The walk ends at an element that is cut.
#[tactic(auto, using(crate::proofs::WalkLaws::taken_noted))]
pub fn walk<'a>(octets: &'a [u8], shape: &Shape) -> Elements<'a>
    ensures { result ≡ firsts shape.now (elements_in shape.now octets.now) }
{
    Elements {
        slots: pass(octets, shape),
    }
}

impl<'a> Elements<'a> {
    /// What stands behind the identifier and the length of an element; of a `Half` the whole octet, in whose low half the value
    /// lies. None exactly where the walk met no such element.
    pub fn get(&self, iei: u8) -> Option<&'a [u8]>
        ensures { option_map (λ v. v.now) result ≡ value_of iei self.now }
    {
        for slot in self.slots.as_slice() {
            if iei == slot.iei {
                if let Some(value) = slot.value {
                    return Some(value);
                }
            }
        }
        None
    }
}

// The places of a shape's rows, each with the first element that it has in the octets.
#[tactic(auto, using(crate::proofs::WalkLaws::within_more))]
fn pass<'a>(octets: &'a [u8], shape: &Shape) -> ArrayVec<Slot<'a>, 32>
    ensures { result.items ≡ all_noted (vacant shape.now) (elements_in shape.now octets.now) }
{
    let mut slots = empty(shape);
    let mut rest = octets;
    for _ in 0..octets.len() {
        let Some(head) = head_of(rest, shape) else {
            return slots;
        };
        note(slots.as_mut_slice(), head.iei, head.value);
        rest = head.behind;
    }
    slots
}

// A vacant place for each row.
fn empty<'a>(shape: &Shape) -> ArrayVec<Slot<'a>, 32>
    ensures { result.items ≡ vacant shape.now }
{
    let mut slots = ArrayVec::new();
    for row in shape.items.as_slice() {
        slots.push(Slot {
            iei: row.iei,
            value: None,
        });
    }
    slots
}

// An element comes to each place.
fn note<'a>(slots: &mut [Slot<'a>], iei: u8, value: &'a [u8])
    ensures { slots.new ≡ map (noted iei value.now) slots.old }
{
    for slot in slots.iter_mut() {
        slot.note(iei, value);
    }
}
