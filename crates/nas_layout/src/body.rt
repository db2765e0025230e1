//! Cutting off the parts of a message's body.
ghost use Rattle.nas_layout.specs.Answers.{Cuts, as_it_is};
ghost use Rattle.nas_layout.specs.Table.{part_at};

use crate::Frame;
use nas_base::Reader;

/// Why octets are not the body of a message.
#[derive(Clone, Copy, Debug, PartialEq, Eq)]
pub enum BodyRefusal {
    /// Of the mandatory parts the one with the number `part` (from 1) is the first to be cut or to have no value; `at` is where
    /// it starts.
    Mandatory { part: u8, at: usize },
    /// There was no memory left.
    Memory,
}

/// The octets of the next part, without their length.
///
/// # Errors
///
/// `Mandatory` where the part is cut, and only there.
pub fn cut<'a>(part: u8, frame: Frame, reader: &mut Reader<'a>) -> Result<&'a [u8], BodyRefusal>
    ensures { Cuts (λ octets. octets.now) result reader.new (part_at part frame as_it_is reader.old) }
{
    let at = reader.place();
    let octets = match frame {
        Frame::V(n) => reader.take(n),
        Frame::Lv => reader.lv(),
        Frame::Lve => reader.lve(),
    };
    match octets {
        Ok(octets) => Ok(octets),
        Err(_) => Err(BodyRefusal::Mandatory { part, at }),
    }
}
