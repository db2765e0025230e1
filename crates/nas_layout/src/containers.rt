//! Reading parts and elements that are kept as their octets.
ghost use Rattle.nas_layout.specs.Answers.{IsRead, Takes};
ghost use Rattle.nas_layout.specs.Codings.{container, identity};
ghost use Rattle.nas_layout.specs.Table.{known, part_at};
ghost use Rattle.nas_layout.specs.declared.frame.Frame.TheVariants.{Lve};

use crate::{BodyRefusal, Frame, cut};
use nas_base::{Elements, Octets, OctetsRefusal, Reader};
use nas_elements::{Identity, IdentityRefusal};
use std::alloc::Global;

/// A mobile identity behind its length of two octets.
///
/// # Errors
///
/// `Mandatory` exactly where it is cut or no identity; or `Memory`, where it is kept as its octets.
#[tactic(auto, unfolding(nas_elements::specs::Identity::identity_in))]
pub fn identity_part(alloc: Global, part: u8, reader: &mut Reader) -> Result<Identity, BodyRefusal>
    ensures { Takes result reader.new identity.is_kept (part_at part Lve identity.reading reader.old) }
{
    let at = reader.place();
    match Identity::read(alloc, cut(part, Frame::Lve, reader)?) {
        Ok(identity) => Ok(identity),
        Err(IdentityRefusal::Wrong { at: _ }) => Err(BodyRefusal::Mandatory { part, at }),
        Err(IdentityRefusal::Memory) => Err(BodyRefusal::Memory),
    }
}

/// Any octets behind their length of two octets.
///
/// # Errors
///
/// `Mandatory` exactly where they are cut or more than 4,100; or `Memory`.
pub fn container_part(alloc: Global, part: u8, reader: &mut Reader) -> Result<Octets, BodyRefusal>
    ensures { Takes result reader.new container.is_kept (part_at part Lve container.reading reader.old) }
{
    let at = reader.place();
    match Octets::copy(alloc, cut(part, Frame::Lve, reader)?) {
        Ok(octets) => Ok(octets),
        Err(OctetsRefusal::TooMany { size: _ }) => Err(BodyRefusal::Mandatory { part, at }),
        Err(OctetsRefusal::Memory) => Err(BodyRefusal::Memory),
    }
}

/// The octets of an element with this identifier, where they are at most 4,100.
///
/// # Errors
///
/// `Memory`, where they are kept.
pub fn known_container(
    alloc: Global,
    iei: u8,
    found: &Elements,
) -> Result<Option<Octets>, BodyRefusal>
    ensures { IsRead result container.is_kept (known iei container.reading found.now) }
{
    let Some(octets) = found.get(iei) else {
        return Ok(None);
    };
    match Octets::copy(alloc, octets) {
        Ok(octets) => Ok(Some(octets)),
        Err(OctetsRefusal::TooMany { size: _ }) => Ok(None),
        Err(OctetsRefusal::Memory) => Err(BodyRefusal::Memory),
    }
}
