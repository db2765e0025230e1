//! The call of smf_core, an SMF with two subscribers:
//!
//!     smf POOLS TIMERS AMBR KINDS SUBSCRIBER SUBSCRIBER INPUT INPUT ..
//!
//! First stands what it is made with:
//!
//!     POOLS         OCTETS:SIZE or OCTETS:SIZE:OCTETS:SIZE: the first address of IPv4 and how many there are, and the
//!                   same of the interface identifiers of IPv6, if there are any
//!     TIMERS        T3591:T3592: how long they run, in milliseconds, 1 to 86,400,000
//!     AMBR          the session AMBR, octets
//!     KINDS         none, or for data networks DNN:KIND with commas between, where KIND is 1, 2 or 3
//!     SUBSCRIBER    SUPI:DNN,DNN,..:SLICES: 15 digits, the subscribed data networks, and the subscribed slices as
//!                   a list of slices
//!
//! An INPUT is one of these; the second word is whose it is, 1 or 2:
//!
//!     now:MS                                        the moment of what follows, at most 10^15; 0 at the beginning
//!     copy                                          a copy of the SMF goes on in its place
//!     frame:N:PSI:SQN:RAND:DNN:SLICE:OCTETS         at most 4,100 octets of the handset under the context of this
//!                                                   challenge, SQN of 6 octets; data network and slice
//!                                                   are octets or `none`
//!     switched:N, release_all:N
//!     keep_only:N:OCTETS                            a session status
//!     expired:N:TIMER                               as T3591/15, or T3550
//!     modify:N:PSI:OCTETS:AMBR                      operations on QoS rules, and an AMBR as octets or `none`
//!     release:N:PSI
//!
//! The answer has a step for each INPUT but the first two, with a blank between. A step is what went out, in order,
//! each of these with a comma behind it, and then what can be seen:
//!
//!     down:PSI:OCTETS, fence, start:TIMER:MS, stop:TIMER
//!     refused:no_such_session:PSI, refused:wrong_state:STATE, refused:settling:SENT,
//!     refused:semantic:RULE, refused:too_many:COUNT, refused:no_change
//!
//! What can be seen is, for each subscriber, with a slash between, the session status and the sessions, with a stroke
//! before each: OCTETS|PSI:STATE:SENT:SESSION|.., as session_texts has a session.

use crate::smf_config::read_config;
use crate::smf_course::Course;
use crate::smf_inputs;
use probe_words::Refusal;
use std::alloc::Global;

/// The answer to a call.
pub fn answer(alloc: Global, words: &[&str]) -> Result<String, Refusal> {
    match words {
        ["smf", pools, timers, ambr, kinds, one, other, inputs @ ..] => {
            let config = read_config(alloc, pools, timers, ambr, kinds, one, other)?;
            walk(alloc, Course::new(alloc, &config)?, inputs)
        }
        _ => Err(Refusal::Unreadable),
    }
}

// What becomes of the inputs.
fn walk(alloc: Global, mut course: Course, inputs: &[&str]) -> Result<String, Refusal> {
    for word in inputs {
        course = course.go(alloc, smf_inputs::read_given(alloc, word)?)?;
    }
    Ok(course.told)
}
