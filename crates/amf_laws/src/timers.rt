//! The timers of an AMF's procedures.
ghost use Rattle.amf_core.specs.Step.{step_of};
ghost use Rattle.amf_laws.specs.Timers.{StayDistinct, TimersFit};

use amf_core::{Amf, AmfInput};
use milenage::Home;
use nas_base::Moment;

/// The timer of a procedure runs exactly while the procedure is open: T3560 while a challenge is, T3550 while an acceptance is, T3555
/// while an update is, T3522 while a de-registration by the network is. Where it was so of each subscriber before a step, what the step starts and stops leaves it
/// so; a timer that expires has stopped. No SUPI is kept twice (TS 24.501 clause 10.2).
pub fn timers_fit_procedures(amf: &Amf, home: &Home, now: Moment, rand: &[u8; 16], input: &AmfInput)
    ensures { TimersFit amf.now input.now (step_of amf.now home.now now rand.now input.now) }
{}

/// A step keeps no SUPI twice, where none was before it.
pub fn subscribers_stay_distinct(
    amf: &Amf,
    home: &Home,
    now: Moment,
    rand: &[u8; 16],
    input: &AmfInput,
)
    ensures { StayDistinct amf.now (step_of amf.now home.now now rand.now input.now) }
{}
