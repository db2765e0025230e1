//! What elements may stand behind the mandatory parts of a message.
ghost use Rattle.std.specs.Prelude.{◌≡◌};
ghost use Rattle.nas_base.specs.Walking.{form_of, shape_from};

use arrayvec::ArrayVec;
use std::marker::Model;

/// How an element is laid out (TS 24.007 clause 11.2.1.1).
#[derive(Clone, Copy, Debug, Default, PartialEq, Eq)]
pub enum Form {
    /// The identifier in the high half of one octet, the value in its low half (type 1).
    Half,
    /// An identifier alone, or with a value behind it that has no length: so many octets together (types 2 and 3).
    Fixed(u8),
    /// The value behind the identifier and a length of one octet (type 4).
    #[default]
    Tlv,
    /// The value behind the identifier and a length of two octets (type 6).
    Tlve,
}

/// An identifier, and the form of its element. A `Half` has one of the identifiers 0x80, 0x90, 0xA0 and 0xD0, and `Fixed` at
/// least one octet.
#[derive(Clone, Copy, Debug, Default, PartialEq, Eq)]
pub struct Row {
    pub iei: u8,
    pub form: Form,
}

impl Model for Row {
    ghost use Rattle.std.specs.Prelude.{◌≡◌, true};
    ghost use Rattle.nas_base.specs.Walking.{RowParts, is_row};

    ghost Value = { RowParts };

    ghost view = { λ r. record { iei = r.iei; form = r.form } };

    ghost invariant = { λ r. is_row r.iei r.form ≡ true };

    ghost inverse = { λ r. record { iei = r.iei; form = r.form } };
}

/// The elements that a message may have, at most 32 rows. A row whose identifier stands in an earlier one has no effect.
#[derive(Debug, Drop)]
pub struct Shape {
    pub items: ArrayVec<Row, 32>,
}

impl Model for Shape {
    ghost use Rattle.std.specs.Prelude.{List};
    ghost use Rattle.nas_base.specs.Walking.{RowParts};

    ghost Value = { List RowParts };

    ghost view = { λ s. s.items.items };
}

impl Shape {
    /// The shape of these rows, or None exactly above 32.
    pub fn from_slice(rows: &[Row]) -> Option<Shape>
        ensures { result ≡ shape_from rows.now }
    {
        let mut items = ArrayVec::new();
        match items.try_extend_from_slice(rows) {
            Ok(()) => Some(Shape { items }),
            Err(_) => None,
        }
    }

    /// The form of an identifier, or None exactly where no row has it.
    pub(crate) fn form_of(&self, iei: u8) -> Option<Form>
        ensures { result ≡ form_of self.now iei }
    {
        for row in self.items.as_slice() {
            if row.iei == iei {
                return Some(row.form);
            }
        }
        None
    }
}
