//! The names of timers, and times.
ghost use Rattle.std.specs.Prelude.{◌≡◌, true, IfOk};
ghost use Rattle.nas_timers.specs.Durations.{is_duration};

use crate::decimal_words::session;
use crate::refusals::Refusal;
use nas_base::{Moment, Psi};
use nas_timers::TimerId;

// 10^15, the last moment.
const LAST_MOMENT: u64 = 1_000_000_000_000_000;

const DAY: u64 = 86_400_000;

/// A moment in milliseconds, at most 10^15.
pub fn moment(word: &str) -> Result<Moment, Refusal> {
    match word.parse::<u64>() {
        Ok(ms) if ms <= LAST_MOMENT => Ok(Moment(ms)),
        _ => Err(Refusal::Unreadable),
    }
}

/// How long a timer runs, in milliseconds: 1 to 86,400,000.
pub fn duration(word: &str) -> Result<Moment, Refusal>
    ensures { IfOk result (λ moment. is_duration moment ≡ true) }
{
    match word.parse::<u64>() {
        Ok(ms) if 1 <= ms && ms <= DAY => Ok(Moment(ms)),
        _ => Err(Refusal::Unreadable),
    }
}

/// The name of a timer, as `T3510`, or as `T3580/15` with its PDU session.
pub fn timer(word: &str) -> Result<TimerId, Refusal> {
    match word.split_once("/") {
        Some((name, number)) => session_timer(name, session(number)?),
        None => mobility_timer(word),
    }
}

fn mobility_timer(name: &str) -> Result<TimerId, Refusal> {
    match handset_timer(name) {
        Some(id) => Ok(id),
        None => network_timer(name).ok_or(Refusal::Unreadable),
    }
}

// A timer of a handset's 5GMM.
fn handset_timer(name: &str) -> Option<TimerId> {
    match name {
        "T3510" => Some(TimerId::T3510),
        "T3516" => Some(TimerId::T3516),
        "T3517" => Some(TimerId::T3517),
        "T3521" => Some(TimerId::T3521),
        _ => None,
    }
}

// A timer of a network's 5GMM.
fn network_timer(name: &str) -> Option<TimerId> {
    match name {
        "T3522" => Some(TimerId::T3522),
        "T3550" => Some(TimerId::T3550),
        "T3555" => Some(TimerId::T3555),
        "T3560" => Some(TimerId::T3560),
        _ => None,
    }
}

// A timer of a session.
fn session_timer(name: &str, psi: Psi) -> Result<TimerId, Refusal> {
    match name {
        "T3580" => Ok(TimerId::T3580(psi)),
        "T3581" => Ok(TimerId::T3581(psi)),
        "T3582" => Ok(TimerId::T3582(psi)),
        "T3591" => Ok(TimerId::T3591(psi)),
        "T3592" => Ok(TimerId::T3592(psi)),
        _ => Err(Refusal::Unreadable),
    }
}
