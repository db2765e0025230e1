//! What the definitions say together. These functions do nothing: their contracts are the laws.
ghost use Rattle.std.specs.Prelude.{◌≡◌, ◌≤◌, ◌<◌, ◌%◌, ◌^◌, Some, length};
ghost use Rattle.nas_base.specs.declared.shape.Form.TheVariants as forms;
ghost use Rattle.nas_layout.specs.Abba.{abba_in};
ghost use Rattle.nas_layout.specs.Codings.{container, half, identity, octet, octets};
ghost use Rattle.nas_layout.specs.Half.{half_in, half_octets};
ghost use Rattle.nas_layout.specs.Identifiers.{IdentifiersHaveNumbers};
ghost use Rattle.nas_layout.specs.Laws.{WrittenAreFound};
ghost use Rattle.nas_layout.specs.ReadBack.{ElementBack, PartBack};
ghost use Rattle.nas_layout.specs.declared.frame.Frame.TheVariants as frames;

use crate::{Abba, Coded, Half, Readable};
use nas_base::Octets;
use nas_elements::{Identity, laws};

/// A half that is written is read back.
pub fn half_is_read_back(half: Half)
    ensures { half_in (half_octets half) ≡ Some half }
{}

/// ABBA that is written is read back.
pub fn abba_is_read_back(abba: &Abba)
    ensures { abba_in abba.now ≡ Some abba.now }
{
    let _items = &abba.items;
}

/// The names of the information elements stand for the identifiers that TS 24.501 gives them.
pub fn identifiers_have_numbers()
    ensures { IdentifiersHaveNumbers }
{}

/// Of elements that are written one behind the other, each in the form of its row and no two with one identifier, a walk finds
/// each.
pub fn written_are_found()
    ensures { WrittenAreFound }
{}

/// An element with a length of one octet is read back (TLV).
#[tactic(auto, using(crate::proofs::ValuesBack::tlv_back))]
pub fn tlv_is_read_back<E: Readable>(iei: u8, value: &Option<E>)
    ensures { ElementBack iei forms.Tlv E.coding value.now }
{
    if let Some(value) = value {
        value.is_read_back();
    }
}

/// An element with a length of two octets is read back (TLV-E).
#[tactic(auto, using(crate::proofs::ValuesBack::tlve_back))]
pub fn tlve_is_read_back<E: Readable>(iei: u8, value: &Option<E>)
    requires { E.most < 2 ^ 16 }
    ensures { ElementBack iei forms.Tlve E.coding value.now }
{
    if let Some(value) = value {
        let _octets = value.octets();
        value.is_read_back();
    }
}

/// An element of one octet behind its identifier is read back.
#[tactic(auto, using(crate::proofs::ValuesBack::octet_back))]
pub fn octet_is_read_back(iei: u8, value: &Option<u8>)
    ensures { ElementBack iei (forms.Fixed 2) octet value.now }
{}

/// An element of 16 octets behind its identifier is read back.
#[tactic(auto, using(crate::proofs::ValuesBack::rand_back))]
pub fn rand_is_read_back(iei: u8, value: &Option<[u8; 16]>)
    ensures { ElementBack iei (forms.Fixed 17) (octets 16) value.now }
{
    if let Some(octets) = value {
        has_sixteen(octets);
    }
}

fn has_sixteen(octets: &[u8; 16])
    ensures { length octets.now ≡ 16 }
{
    let _octets = *octets;
}

/// An element of half an octet is read back, under an identifier whose low half is 0.
#[tactic(auto, using(crate::proofs::ValuesBack::half_back))]
pub fn half_element_is_read_back(iei: u8, value: &Option<Half>)
    requires { iei % 16 ≡ 0 }
    ensures { ElementBack iei forms.Half half value.now }
{
    if let Some(half) = value {
        let _half = half.0;
    }
}

/// An element that is kept as its octets is read back.
#[tactic(auto, using(crate::proofs::ValuesBack::container_back))]
pub fn container_is_read_back(iei: u8, value: &Option<Octets>)
    ensures { ElementBack iei forms.Tlve container value.now }
{
    if let Some(octets) = value {
        let _octets = octets.as_slice();
    }
}

/// A part that is kept as its octets is read back.
#[tactic(auto, using(crate::proofs::ValuesBack::container_part_back))]
pub fn container_part_is_read_back(value: &Octets)
    ensures { PartBack frames.Lve container value.now }
{
    let _octets = value.as_slice();
}

/// An identity is read back as a part.
#[tactic(auto, using(crate::proofs::ValuesBack::identity_part_back))]
pub fn identity_is_read_back(value: &Identity)
    ensures { PartBack frames.Lve identity value.now }
{
    let _octets = Coded::octets(value);
    laws::identity_is_read_back(value);
}

/// A part with a length of one octet is read back (LV).
#[tactic(auto, using(crate::proofs::ValuesBack::lv_part_back))]
pub fn lv_is_read_back<E: Readable>(value: &E)
    requires { E.most ≤ 255 }
    ensures { PartBack frames.Lv E.coding value.now }
{
    let _octets = value.octets();
    value.is_read_back();
}
