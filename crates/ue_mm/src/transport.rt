//! The transport of 5GSM messages.
ghost use Rattle.std.specs.Prelude.{◌≡◌, OnOk};
ghost use Rattle.ue_mm.specs.Transport.{carried, transported, ul_transport};

use crate::UeOut;
use crate::work::Work;
use mm_messages::{DlNasTransport, Mm, UlNasTransport};
use nas_base::{Memory, Octets, Psi};
use nas_elements::Dnn;
use nas_layout::Half;
use std::alloc::Global;

// Payload container type: N1 SM information (TS 24.501 clause 9.11.3.40).
const N1_SM: Half = Half(1);

// Request type: initial request (TS 24.501 clause 9.11.3.47).
const INITIAL_REQUEST: Half = Half(1);

// UL NAS TRANSPORT with a message of a session.
fn ul_transport(psi: Psi, dnn: Option<Dnn>, frame: Octets) -> Mm
    ensures { result ≡ ul_transport psi dnn frame }
{
    let request_type = match &dnn {
        Some(_) => Some(INITIAL_REQUEST),
        None => None,
    };
    Mm::UlNasTransport(UlNasTransport {
        container_type: N1_SM,
        container: frame,
        psi: Some(psi.0),
        request_type,
        slice: None,
        dnn,
    })
}

impl Work {
    /// DL NAS TRANSPORT.
    #[tactic(auto, unfolding(crate::specs::Transport::transported, nas_base::specs::Branches::chosen, nas_base::specs::Branches::per))]
    pub fn transported(&mut self, alloc: Global, transport: &DlNasTransport) -> Result<(), Memory>
        ensures { OnOk result (self.new ≡ transported transport.now self.old) }
    {
        if transport.container_type != N1_SM {
            return Ok(());
        }
        let Ok(container) = Octets::copy(alloc, transport.container.as_slice()) else {
            return Err(Memory);
        };
        match transport.cause {
            None => self.tell(UeOut::ToSession(container)),
            Some(_) => self.tell(UeOut::NotForwarded(container)),
        }
    }

    /// A message of a session is carried.
    #[tactic(auto, unfolding(crate::specs::Transport::carried, nas_base::specs::Branches::chosen))]
    pub fn carry(&mut self, psi: Psi, dnn: Option<Dnn>, frame: Octets) -> Result<(), Memory>
        ensures { OnOk result (self.new ≡ carried psi dnn frame self.old) }
    {
        if !self.common.secure {
            return Ok(());
        }
        self.answer(ul_transport(psi, dnn, frame))
    }
}
