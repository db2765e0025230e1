//! The subscribers that an input doesn't concern.
ghost use Rattle.amf_core.specs.Step.{step_of};
ghost use Rattle.amf_laws.specs.Others.{OthersStay};

use amf_core::{Amf, AmfInput};
use milenage::Home;
use nas_base::Moment;

/// A step changes nothing of the subscribers that its input doesn't concern. Octets that come up a link concern the one that the link last
/// passed or challenged, and those that are named by a SUCI, a kept 5G-GUTI or a kept 5G-S-TMSI in a message that can be read in them: they
/// are it, they are a frame that isn't ciphered and holds it, or they pass a check and open to it. A link that is lost concerns the one that
/// it last passed or challenged, and any other input the SUPI that it names.
pub fn other_subscribers_stay(
    amf: &Amf,
    home: &Home,
    now: Moment,
    rand: &[u8; 16],
    input: &AmfInput,
)
    ensures { OthersStay amf.now input.now (step_of amf.now home.now now rand.now input.now) }
{}
