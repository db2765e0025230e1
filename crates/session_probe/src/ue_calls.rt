//! The call of ue_sm, the sessions of a handset:
//!
//!     ue T3580:T3581:T3582 INPUT INPUT ..
//!
//! First stands how long the timers run, in milliseconds, 1 to 86,400,000. An INPUT is one of these:
//!
//!     now:MS                      the moment of what follows, at most 10^15; 0 at the beginning
//!     copy                        a copy of the sessions goes on in their place
//!     establish:PSI:KIND:DNN      KIND is 1, 2 or 3
//!     modify:PSI:OCTETS           operations on QoS rules
//!     release:PSI
//!     frame:OCTETS                at most 4,100 octets of the network
//!     not_forwarded:OCTETS        such octets of theirs come back
//!     expired:TIMER               as T3580/15, or T3510
//!     new_context, abandon, clear
//!     keep:OCTETS                 a session status
//!
//! The answer has a step for each INPUT but the first two, with a blank between. A step is what went out, in order,
//! each of these with a comma behind it, and then what can be seen:
//!
//!     carry:PSI:OCTETS, carry:PSI:OCTETS:DNN
//!     start:TIMER:MS, stop:TIMER
//!     refused:no_such_session:PSI, refused:session_there:PSI, refused:wrong_state:STATE,
//!     refused:semantic:RULE, refused:too_many:COUNT, refused:no_pti:LAST
//!
//! What can be seen is the sessions that aren't inactive, with a stroke between, as PSI:STATE or PSI:STATE:SESSION
//! (session_texts), or `none`.

use crate::ue_course::Course;
use crate::ue_inputs;
use nas_timers::Durations;
use probe_words::{Refusal, duration};
use std::alloc::Global;

/// The answer to a call.
pub fn answer(alloc: Global, words: &[&str]) -> Result<String, Refusal> {
    match words {
        ["ue", timers, inputs @ ..] => walk(alloc, timers, inputs),
        _ => Err(Refusal::Unreadable),
    }
}

// A handset's sessions, and what becomes of the inputs.
fn walk(alloc: Global, timers: &str, inputs: &[&str]) -> Result<String, Refusal> {
    let durations = durations(timers)?;
    let mut course = Course::new(alloc, &durations)?;
    for word in inputs {
        course = course.go(alloc, ue_inputs::read_given(alloc, word)?)?;
    }
    Ok(course.told)
}

// The durations of T3580, T3581 and T3582; all others are the standard ones.
fn durations(words: &str) -> Result<Durations, Refusal> {
    let Some((t3580, words)) = words.split_once(":") else {
        return Err(Refusal::Unreadable);
    };
    let Some((t3581, t3582)) = words.split_once(":") else {
        return Err(Refusal::Unreadable);
    };
    Ok(Durations {
        t3580: duration(t3580)?,
        t3581: duration(t3581)?,
        t3582: duration(t3582)?,
        ..Durations::standard()
    })
}
