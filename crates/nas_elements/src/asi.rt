//! What a network asks for beside its command.
ghost use Rattle.std.specs.Prelude.{◌≡◌};
ghost use Rattle.nas_base.specs.Writing.{Writes};
ghost use Rattle.nas_elements.specs.Asi.{asi_in, asi_octets, is_whole_message_wanted};
ghost use Rattle.nas_elements.specs.Reads.{Reads};

use crate::Wrong;
use nas_base::{Full, Writer};

/// The additional 5G security information, one octet, kept whole (TS 24.501 clause 9.11.3.12).
#[derive(Clone, Copy)]
pub struct Asi(pub u8);

impl Asi {
    /// The information in the octet.
    ///
    /// # Errors
    ///
    /// `Wrong` exactly where there is not one octet.
    #[tactic(auto, using(crate::proofs::OneOctet::wrong_asi))]
    pub fn read(octets: &[u8]) -> Result<Asi, Wrong>
        ensures { Reads asi_in octets.now result }
    {
        match octets {
            [octet] => Ok(Asi(*octet)),
            _ => Err(Wrong {
                at: octets.len().min(1),
            }),
        }
    }

    /// Writes its octet.
    ///
    /// # Errors
    ///
    /// `Full` exactly where it doesn't fit; nothing is then written.
    pub fn write(&self, out: &mut Writer) -> Result<(), Full>
        ensures { Writes (asi_octets self.now) out.old out.new result }
    {
        out.put(&self.octets())
    }

    /// Its octet.
    pub fn octets(&self) -> [u8; 1]
        ensures { result ≡ asi_octets self.now }
    {
        [self.0]
    }

    /// Whether the handset is to send the whole initial message (bit 2, RINMR).
    pub fn asks_for_whole_message(self) -> bool
        ensures { result ≡ is_whole_message_wanted self }
    {
        self.0 / 2 % 2 == 1
    }
}
