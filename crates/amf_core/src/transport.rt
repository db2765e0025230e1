//! The transport of 5GSM messages.
ghost use Rattle.std.specs.Prelude.{◌≡◌, OnOk};
ghost use Rattle.amf_core.specs.Transport.{brought_down, not_forwarded, session_of, transported};
ghost use Rattle.amf_core.specs.Work.{by};

use crate::acts::Protection;
use crate::work::Work;
use crate::{Record, SmfAsk};
use mm_messages::{DlNasTransport, Mm, UlNasTransport};
use nas_base::mm_cause::PAYLOAD_WAS_NOT_FORWARDED;
use nas_base::{Memory, Octets, Psi};
use nas_layout::Half;
use nas_security::Challenge;

// Payload container type: N1 SM information (TS 24.501 clause 9.11.3.40).
const N1_SM: Half = Half(1);

// The session of a 5GSM message.
#[tactic(auto, unfolding(nas_base::specs::Branches::chosen, nas_base::specs::Branches::per))]
fn session_of(container_type: Half, psi: Option<u8>) -> Option<Psi>
    ensures { result ≡ session_of container_type psi }
{
    if container_type != N1_SM {
        return None;
    }
    match psi {
        Some(link) => Psi::from_number(link),
        None => None,
    }
}

impl<'a> Work<'a> {
    // A container that goes back.
    fn not_forwarded(
        &mut self,
        transport: UlNasTransport,
        link: u16,
        s: &Record,
    ) -> Result<(), Memory>
        ensures { OnOk result (self.new ≡ by (not_forwarded transport link s.now) self.old) }
    {
        self.say(
            link,
            Protection::Ciphered(s.supi.copy()),
            Mm::DlNasTransport(DlNasTransport {
                container_type: transport.container_type,
                container: transport.container,
                psi: transport.psi,
                cause: Some(PAYLOAD_WAS_NOT_FORWARDED),
            }),
        )
    }

    /// UL NAS TRANSPORT under the context of this challenge.
    #[tactic(auto, unfolding(crate::specs::Transport::transported, nas_base::specs::Branches::per))]
    pub fn transported(
        &mut self,
        transport: UlNasTransport,
        link: u16,
        challenge: Challenge,
        s: &Record,
    ) -> Result<(), Memory>
        ensures { OnOk result (self.new ≡ by (transported transport link challenge s.now) self.old) }
    {
        let Some(psi) = session_of(transport.container_type, transport.psi) else {
            return self.not_forwarded(transport, link, s);
        };
        self.ask(
            SmfAsk::Frame {
                psi,
                challenge,
                dnn: transport.dnn,
                slice: transport.slice,
                octets: transport.container,
            },
            s,
        )
    }

    /// DL NAS TRANSPORT with a 5GSM message of the SMF.
    #[tactic(auto, unfolding(crate::specs::Transport::brought_down))]
    pub fn bring_down(&mut self, psi: Psi, frame: Octets, s: &Record) -> Result<(), Memory>
        ensures { OnOk result (self.new ≡ by (brought_down psi frame s.now) self.old) }
    {
        self.say_on(
            s.link,
            Protection::Ciphered(s.supi.copy()),
            Mm::DlNasTransport(DlNasTransport {
                container_type: N1_SM,
                container: frame,
                psi: Some(psi.0),
                cause: None,
            }),
        )
    }
}
