//! How long messages are.
ghost use Rattle.amf_core.specs.Step.{step_of};
ghost use Rattle.amf_laws.specs.Lengths.{MessagesFit};

use amf_core::{Amf, AmfInput};
use milenage::Home;
use nas_base::Moment;

/// Every message that a step sends has at most 4,096 octets; one whose frame would have more isn't sent.
pub fn messages_have_4096_octets_at_most(
    amf: &Amf,
    home: &Home,
    now: Moment,
    rand: &[u8; 16],
    input: &AmfInput,
)
    ensures { MessagesFit (step_of amf.now home.now now rand.now input.now) }
{}
