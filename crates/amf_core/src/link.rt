//! The record of a link.
ghost use Rattle.std.specs.Prelude.{◌≡◌};
ghost use Rattle.amf_core.specs.State.{unused};

use crate::Request;
use nas_base::Supi;

/// What an AMF keeps of a link, an N1 connection of one handset: its number, 1 to 64, whether messages were exchanged securely on it, the
/// subscriber that it last passed or challenged, and the request that waits for the identity of who sent it.
#[derive(Drop)]
pub struct Link {
    pub number: u16,
    pub secure: bool,
    pub supi: Option<Supi>,
    pub waiting: Option<Request>,
}

impl Link {
    /// A link that nothing was exchanged on.
    pub fn unused(number: u16) -> Link
        ensures { result ≡ unused number }
    {
        Link {
            number,
            secure: false,
            supi: None,
            waiting: None,
        }
    }

    /// An equal value.
    pub fn copy(&self) -> Link
        ensures { result ≡ self.now }
    {
        let supi = match &self.supi {
            Some(supi) => Some(supi.copy()),
            None => None,
        };
        let waiting = match &self.waiting {
            Some(request) => Some(request.copy()),
            None => None,
        };
        Link {
            number: self.number,
            secure: self.secure,
            supi,
            waiting,
        }
    }
}
