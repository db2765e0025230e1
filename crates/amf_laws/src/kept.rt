//! The subscribers and the 5G-GUTIs that an AMF keeps.
ghost use Rattle.amf_core.specs.Step.{step_of};
ghost use Rattle.amf_laws.specs.Kept.{StayFew, SupisStay};

use amf_core::{Amf, AmfInput};
use milenage::Home;
use nas_base::Moment;

/// Two 5G-GUTIs at most are kept for each subscriber behind a step, where it was so before it (TS 24.501 clauses 5.4.4 and
/// 5.5.1.2.4).
pub fn kept_lists_have_two_at_most(
    amf: &Amf,
    home: &Home,
    now: Moment,
    rand: &[u8; 16],
    input: &AmfInput,
)
    ensures { StayFew amf.now (step_of amf.now home.now now rand.now input.now) }
{}

/// A step keeps the same subscribers, in the order of the configuration.
pub fn same_subscribers_are_kept(
    amf: &Amf,
    home: &Home,
    now: Moment,
    rand: &[u8; 16],
    input: &AmfInput,
)
    ensures { SupisStay amf.now (step_of amf.now home.now now rand.now input.now) }
{}
