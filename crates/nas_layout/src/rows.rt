//! The rows of a message's elements, by which a walk finds them.
ghost use Rattle.std.specs.Prelude.{◌≡◌};
ghost use Rattle.nas_layout.specs.Rows.{fixed_row, tlv_row, tlve_row};

use nas_base::{Form, Row};

/// An element with a length of one octet.
pub fn tlv_row(iei: u8) -> Row
    ensures { result ≡ tlv_row iei }
{
    Row {
        iei,
        form: Form::Tlv,
    }
}

/// An element with a length of two octets.
pub fn tlve_row(iei: u8) -> Row
    ensures { result ≡ tlve_row iei }
{
    Row {
        iei,
        form: Form::Tlve,
    }
}

/// An element without a length: so many octets together with its identifier, 0 counts as 1.
pub fn fixed_row(iei: u8, octets: u8) -> Row
    ensures { result ≡ fixed_row iei octets }
{
    Row {
        iei,
        form: Form::Fixed(octets.max(1)),
    }
}
