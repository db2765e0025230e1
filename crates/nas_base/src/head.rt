//! The element that begins some octets.
ghost use Rattle.std.specs.Prelude.{◌≡◌, ◌<◌, drop, slice_index};
ghost use Rattle.nas_base.specs.Walking.{cut, form_in, head_of, identifier_in, is_half, size_of, start_of, unknown_form};

use crate::{Form, Shape};
use std::marker::Model;

/// The element that begins some octets, and the octets behind it.
#[derive(Drop)]
pub struct Head<'a> {
    pub iei: u8,
    pub value: &'a [u8],
    pub behind: &'a [u8],
}

impl<'a> Model for Head<'a> {
    ghost use Rattle.nas_base.specs.Walking.{Head as HeadParts};

    ghost Value = { HeadParts };

    ghost view = { λ h. record { iei = h.iei; value = h.value.now; behind = h.behind.now } };
}

/// The element that begins the octets, or None where it is cut or there are none.
pub fn head_of<'a>(octets: &'a [u8], shape: &Shape) -> Option<Head<'a>>
    ensures { result ≡ head_of shape.now octets.now }
{
    if octets.is_empty() {
        return None;
    }
    let iei = identifier_in(octets[0], shape);
    cut(iei, form_in(iei, shape), octets)
}

// The identifier in an octet.
fn identifier_in(octet: u8, shape: &Shape) -> u8
    ensures { result ≡ identifier_in shape.now octet }
{
    let high = 16 * (octet / 16);
    if shape.form_of(octet).is_none() && is_half(shape.form_of(high)) {
        high
    } else {
        octet
    }
}

// Whether the row of a half was found.
fn is_half(form: Option<Form>) -> bool
    ensures { result ≡ is_half form }
{
    match form {
        Some(Form::Half) => true,
        _ => false,
    }
}

// The form of an identifier, known or unknown.
fn form_in(iei: u8, shape: &Shape) -> Form
    ensures { result ≡ form_in shape.now iei }
{
    match shape.form_of(iei) {
        Some(form) => form,
        None => unknown_form(iei),
    }
}

// The form of an identifier that no row has (TS 24.007 clause 11.2.4).
fn unknown_form(iei: u8) -> Form
    ensures { result ≡ unknown_form iei }
{
    if iei >= 0x80 {
        Form::Fixed(1)
    } else if iei >= 0x70 {
        Form::Tlve
    } else {
        Form::Tlv
    }
}

// An element of this identifier and form, or None where it is cut.
fn cut<'a>(iei: u8, form: Form, octets: &'a [u8]) -> Option<Head<'a>>
    ensures { result ≡ cut iei form octets.now }
{
    let size = size_of(form, octets);
    if size > octets.len() {
        return None;
    }
    let (whole, behind) = octets.split_at(size);
    Some(Head {
        iei,
        value: behind_first(start_of(form), whole),
        behind,
    })
}

// How many octets the element has that begins here. Octets of a length that aren't there count as 0: it is cut then too.
fn size_of(form: Form, octets: &[u8]) -> usize
    ensures { result ≡ size_of form octets.now }
{
    match form {
        Form::Half => 1,
        Form::Fixed(n) => n as usize,
        Form::Tlv => 2 + octet_at(octets, 1),
        Form::Tlve => 3 + 256 * octet_at(octets, 1) + octet_at(octets, 2),
    }
}

// The octet at a place, or 0 where there is none.
fn octet_at(octets: &[u8], place: usize) -> usize
    ensures value { result ≡ slice_index octets.now place }
    ensures bound { result < 256 }
{
    match octets.get(place) {
        Some(octet) => *octet as usize,
        None => 0,
    }
}

// Where the value of an element begins.
fn start_of(form: Form) -> usize
    ensures { result ≡ start_of form }
{
    match form {
        Form::Half => 0,
        Form::Fixed(_) => 1,
        Form::Tlv => 2,
        Form::Tlve => 3,
    }
}

// What stands behind the first `count` octets.
fn behind_first(count: usize, octets: &[u8]) -> &[u8]
    ensures { result.now ≡ drop count octets.now }
{
    match octets.get(count..) {
        Some(rest) => rest,
        None => &[],
    }
}
