//! The call of ue_mm, at the handset of handset_calls with the standard capability, at moment 0. What a whole handset does is
//! driven there; here are what goes to its sessions and comes from them, timers that no procedure has, and counts near their end:
//!
//!     mobility SQN INPUT INPUT ..
//!
//! SQN is SQN_MS in hex, 6 octets. An INPUT is one of these:
//!
//!     held:OCTETS             the PDU sessions that are held from here on, a session status; none at the beginning
//!     counts:UP:DOWN          the next counts of the context in use are these, at most 2^24
//!     register, mobility, periodic, service, deregister, switch-off
//!     octets:OCTETS           at most 4,100 octets reach the handset
//!     expired:TIMER           T3510, T3516, T3517, T3521, T3522, T3550, T3555 or T3560
//!     drop, restart
//!     carry:PSI:OCTETS        a message of a session, perhaps with its data network
//!     carry:PSI:OCTETS:DNN
//!
//! The answer has a step for each INPUT but the first two, with a blank between. A step is what went out, in order, and then
//! what can be seen, with commas between. Beside what handset_calls lists, these go out:
//!
//!     to_session:OCTETS, not_forwarded:OCTETS, abandon, clear, keep:OCTETS
//!     start:TIMER:MS, stop:TIMER

use crate::handset_config::{config, sequence_number, standard_capability};
use crate::mobility_course::Course;
use crate::mobility_inputs;
use probe_words::Refusal;
use std::alloc::Global;

/// The answer to a call.
pub fn answer(alloc: Global, words: &[&str]) -> Result<String, Refusal> {
    match words {
        ["mobility", sqn, inputs @ ..] => walk(alloc, sqn, inputs),
        _ => Err(Refusal::Unreadable),
    }
}

// A handset with this SQN_MS, and what becomes of the inputs.
fn walk(alloc: Global, sqn: &str, inputs: &[&str]) -> Result<String, Refusal> {
    let config = config(sequence_number(sqn)?, standard_capability()?)?;
    let mut course = Course::new(alloc, &config);
    for word in inputs {
        course = course.go(alloc, mobility_inputs::read_given(alloc, word)?)?;
    }
    Ok(course.told)
}
