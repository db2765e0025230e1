//! Reading parts and elements that want no memory.
ghost use Rattle.std.specs.Prelude.{◌≡◌, false};
ghost use Rattle.nas_layout.specs.Answers.{Takes};
ghost use Rattle.nas_layout.specs.Table.{known, part_at};

use crate::{BodyRefusal, Frame, Readable, cut};
use nas_base::{Elements, Reader};

/// The value of the next part, which is counted from 1.
///
/// # Errors
///
/// `Mandatory` exactly where it is cut or has no value.
pub fn read_part<E: Readable>(part: u8, frame: Frame, reader: &mut Reader) -> Result<E, BodyRefusal>
    ensures { Takes result reader.new (λ x. false) (part_at part frame E.coding.reading reader.old) }
{
    let at = reader.place();
    match E::read_from(cut(part, frame, reader)?) {
        Some(value) => Ok(value),
        None => Err(BodyRefusal::Mandatory { part, at }),
    }
}

/// The value of the element with this identifier. One that has no value is as one that isn't there.
pub fn known<E: Readable>(iei: u8, found: &Elements) -> Option<E>
    ensures { result ≡ known iei E.coding.reading found.now }
{
    E::read_from(found.get(iei)?)
}
