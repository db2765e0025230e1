//! Writing pieces.
ghost use Rattle.std.specs.Prelude.{◌≡◌, ◌%◌, true, length, slice_index};
ghost use Rattle.nas_base.specs.Writing.{Writes};
ghost use Rattle.nas_layout.specs.Pieces.{formed, is_room_under};

use crate::{Frame, Pieces};
use byteorder::{BigEndian, ByteOrder};
use nas_base::{Form, Full, Writer};

impl Pieces for Writer {
    ghost use Rattle.nas_layout.specs.Telling.{Overflows, appended};

    type Refusal = Full;

    ghost with_piece = { appended };

    ghost refuses = { Overflows };

    fn mandatory(&mut self, frame: Frame, octets: &[u8]) -> Result<(), Full> {
        match frame {
            Frame::V(_) => self.put(octets),
            Frame::Lv => self.lv(octets),
            Frame::Lve => self.lve(octets),
        }
    }

    fn optional(&mut self, iei: u8, form: Form, octets: Option<&[u8]>) -> Result<(), Full> {
        match octets {
            None => Ok(()),
            Some(octets) => write_element(self, iei, form, octets),
        }
    }
}

// An element that is there.
fn write_element(out: &mut Writer, iei: u8, form: Form, octets: &[u8]) -> Result<(), Full>
    requires { is_room_under iei form (length octets.now) ≡ true }
    ensures { Writes (formed iei form octets.now) out.old out.new result }
{
    match form {
        Form::Half => out.put(&[iei + low_half(octets)]),
        Form::Fixed(_) => out.put_headed(&[iei], octets),
        Form::Tlv => out.put_headed(&[iei, octets.len() as u8], octets),
        Form::Tlve => {
            let mut head = [iei, 0, 0];
            BigEndian::write_u16(&mut head[1..], octets.len() as u16);
            out.put_headed(&head, octets)
        }
    }
}

// The low half of the first octet, 0 where there is none.
fn low_half(octets: &[u8]) -> u8
    ensures { result ≡ slice_index octets.now 0 % 16 }
{
    match octets {
        [octet, ..] => *octet % 16,
        [] => 0,
    }
}
