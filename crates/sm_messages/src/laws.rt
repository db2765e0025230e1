//! What holds of every message. These functions do nothing: their contracts are the laws.
ghost use Rattle.std.specs.Prelude.{◌≡◌, ℕ, true, List, ◌++◌, Ok};
ghost use Rattle.nas_base.specs.Walking.{RowParts, elements_in};
ghost use Rattle.nas_layout.specs.FirstElements.{count_nothing, is_walked_whole};
ghost use Rattle.sm_messages.specs.FirstElements.{EndsInElements};
ghost use Rattle.sm_messages.specs.Messages.{SpellsFrame, sm_in, spelled, spelling};
ghost use Rattle.sm_messages.specs.declared.message.SmFrame.{SmFrame as AFrame};

use crate::{Sm, SmFrame};

/// A message that is written is read back.
pub fn frame_is_read_back(frame: &SmFrame)
    ensures { sm_in (spelling frame.now) ≡ Ok frame.now }
{
    message_is_read_back(frame.psi, frame.pti, &frame.body);
}

// Under any identities.
#[tactic(auto, using(crate::proofs::Back::back))]
fn message_is_read_back(psi: u8, pti: u8, message: &Sm)
    ensures { sm_in (spelled psi pti message.now) ≡ Ok (record { psi = psi; pti = pti; body = message.now }) }
{
    match message {
        Sm::PduSessionEstablishmentRequest(message) => message.is_read_back(),
        Sm::PduSessionEstablishmentAccept(message) => message.is_read_back(),
        Sm::PduSessionEstablishmentReject(message) => message.is_read_back(),
        Sm::PduSessionModificationRequest(message) => message.is_read_back(),
        Sm::PduSessionModificationReject(message) => message.is_read_back(),
        Sm::PduSessionModificationCommand(message) => message.is_read_back(),
        Sm::PduSessionModificationCommandReject(message) => message.is_read_back(),
        Sm::PduSessionReleaseRequest(message) => message.is_read_back(),
        Sm::PduSessionReleaseReject(message) => message.is_read_back(),
        Sm::PduSessionReleaseCommand(message) => message.is_read_back(),
        Sm::PduSessionReleaseComplete(message) => message.is_read_back(),
        Sm::FiveGsmStatus(message) => message.is_read_back(),
        Sm::PduSessionModificationComplete => {}
    }
}

/// Octets spell a message exactly where it is what is read in them; so they spell at most one.
pub fn frames_are_spelled(octets: &[u8])
    ensures found { (frame : AFrame) → SpellsFrame octets.now frame → sm_in octets.now ≡ Ok frame }
    ensures only { (frame : AFrame) → sm_in octets.now ≡ Ok frame → SpellsFrame octets.now frame }
{}

/// Of elements with the same identifier the first counts: behind a message none of whose elements is cut, further octets change
/// nothing where each element in them has an identifier that stood before, or one that the message's table doesn't know.
pub fn first_elements_count(octets: &[u8])
    ensures { (shape : List RowParts) (tail more : List ℕ) → EndsInElements octets.now shape tail → is_walked_whole shape tail ≡ true → count_nothing shape (elements_in shape tail) (elements_in shape more) ≡ true → sm_in (octets.now ++ more) ≡ sm_in octets.now }
{}
