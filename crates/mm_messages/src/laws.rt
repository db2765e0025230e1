//! What holds of every message. These functions do nothing: their contracts are the laws.
ghost use Rattle.std.specs.Prelude.{◌≡◌, ℕ, true, List, ◌++◌, Ok};
ghost use Rattle.nas_base.specs.Walking.{RowParts, elements_in};
ghost use Rattle.nas_layout.specs.FirstElements.{count_nothing, is_walked_whole};
ghost use Rattle.mm_messages.specs.FirstElements.{EndsInElements};
ghost use Rattle.mm_messages.specs.Messages.{SpellsMessage, mm_in, spelling};
ghost use Rattle.mm_messages.specs.declared.message.Mm.{Mm as AMessage};

use crate::Mm;

/// A message that is written is read back.
#[tactic(auto, using(crate::proofs::Back::back))]
pub fn message_is_read_back(message: &Mm)
    ensures { mm_in (spelling message.now) ≡ Ok message.now }
{
    match message {
        Mm::RegistrationRequest(message) => message.is_read_back(),
        Mm::RegistrationAccept(message) => message.is_read_back(),
        Mm::RegistrationReject(message) => message.is_read_back(),
        Mm::DeregistrationRequestUeOriginating(message) => message.is_read_back(),
        Mm::DeregistrationRequestUeTerminated(message) => message.is_read_back(),
        Mm::ServiceRequest(message) => message.is_read_back(),
        Mm::ServiceReject(message) => message.is_read_back(),
        Mm::ServiceAccept(message) => message.is_read_back(),
        Mm::ConfigurationUpdateCommand(message) => message.is_read_back(),
        Mm::AuthenticationRequest(message) => message.is_read_back(),
        Mm::AuthenticationResponse(message) => message.is_read_back(),
        Mm::AuthenticationFailure(message) => message.is_read_back(),
        Mm::IdentityRequest(message) => message.is_read_back(),
        Mm::IdentityResponse(message) => message.is_read_back(),
        Mm::SecurityModeCommand(message) => message.is_read_back(),
        Mm::SecurityModeComplete(message) => message.is_read_back(),
        Mm::SecurityModeReject(message) => message.is_read_back(),
        Mm::FiveGmmStatus(message) => message.is_read_back(),
        Mm::UlNasTransport(message) => message.is_read_back(),
        Mm::DlNasTransport(message) => message.is_read_back(),
        Mm::RegistrationComplete => {}
        Mm::DeregistrationAcceptUeOriginating => {}
        Mm::DeregistrationAcceptUeTerminated => {}
        Mm::ConfigurationUpdateComplete => {}
        Mm::AuthenticationReject => {}
    }
}

/// Octets spell a message exactly where it is what is read in them; so they spell at most one.
pub fn messages_are_spelled(octets: &[u8])
    ensures found { (message : AMessage) → SpellsMessage octets.now message → mm_in octets.now ≡ Ok message }
    ensures only { (message : AMessage) → mm_in octets.now ≡ Ok message → SpellsMessage octets.now message }
{}

/// Of elements with the same identifier the first counts: behind a message none of whose elements is cut, further octets change
/// nothing where each element in them has an identifier that stood before, or one that the message's table doesn't know.
pub fn first_elements_count(octets: &[u8])
    ensures { (shape : List RowParts) (tail more : List ℕ) → EndsInElements octets.now shape tail → is_walked_whole shape tail ≡ true → count_nothing shape (elements_in shape tail) (elements_in shape more) ≡ true → mm_in (octets.now ++ more) ≡ mm_in octets.now }
{}
