//! The calls of nas_timers:
//!
//!     timers WORD ..
//!
//! The words are carried out in turn on timers of which none runs: `start:TIMER:AT` and `stop:TIMER`, and the questions `due:NOW`,
//! `deadline:TIMER` and `lasts:TIMER`, which ask for the standard durations. A timer is named as `T3510`, or with its PDU session as
//! `T3580/15`. The answer has a word for each question: a timer's name or a number of milliseconds, or `none`.

use nas_base::{Moment, Psi};
use nas_timers::{Durations, TimerId, Timers};
use probe_words::{Refusal, literal, none, push, timer, word};
use std::alloc::Global;

/// The answer to a call.
pub fn answer(alloc: Global, words: &[&str]) -> Result<String, Refusal> {
    let ["timers", inputs @ ..] = words else {
        return Err(Refusal::Unreadable);
    };
    let mut timers = Timers::new();
    let mut line = String::new(alloc);
    for input in inputs {
        let Some((name, value)) = input.split_once(":") else {
            return Err(Refusal::Unreadable);
        };
        carry_out(alloc, &mut timers, &mut line, name, value)?;
    }
    Ok(line)
}

fn carry_out(
    alloc: Global,
    timers: &mut Timers,
    line: &mut String,
    name: &str,
    value: &str,
) -> Result<(), Refusal> {
    match name {
        "start" => start(timers, value),
        "stop" => {
            timers.stop(timer(value)?);
            Ok(())
        }
        _ => append(line, asked(alloc, timers, name, value)?),
    }
}

fn start(timers: &mut Timers, value: &str) -> Result<(), Refusal> {
    let Some((name, at)) = value.split_once(":") else {
        return Err(Refusal::Unreadable);
    };
    timers.start(timer(name)?, moment(at)?);
    Ok(())
}

// The answer to a question.
fn asked(alloc: Global, timers: &Timers, name: &str, value: &str) -> Result<String, Refusal> {
    match name {
        "due" => id_or_none(alloc, timers.due(moment(value)?)),
        "deadline" => at_or_none(alloc, timers.copy().deadline(timer(value)?)),
        "lasts" => milliseconds(alloc, Durations::standard().of(&timer(value)?)),
        _ => Err(Refusal::Unreadable),
    }
}

fn moment(word: &str) -> Result<Moment, Refusal> {
    match word.parse::<u64>() {
        Ok(number) => Ok(Moment::at(number)),
        Err(_) => Err(Refusal::Unreadable),
    }
}

fn at_or_none(alloc: Global, at: Option<Moment>) -> Result<String, Refusal> {
    match at {
        Some(at) => milliseconds(alloc, at),
        None => none(alloc),
    }
}

fn milliseconds(alloc: Global, at: Moment) -> Result<String, Refusal> {
    let number = at.0;
    word(format!(in alloc; "{number}"))
}

// A word behind those of the line.
fn append(line: &mut String, word: String) -> Result<(), Refusal> {
    if !line.is_empty() {
        push(line, " ")?;
    }
    push(line, word.as_str())
}

fn id_or_none(alloc: Global, id: Option<TimerId>) -> Result<String, Refusal> {
    match id {
        Some(id) => id_text(alloc, id),
        None => none(alloc),
    }
}

// The name of a timer.
fn id_text(alloc: Global, id: TimerId) -> Result<String, Refusal> {
    let name = name_of(&id);
    match session_of(&id) {
        None => literal(alloc, name),
        Some(Psi(number)) => word(format!(in alloc; "{name}/{number}")),
    }
}

fn name_of(id: &TimerId) -> &'static str {
    match id {
        TimerId::T3510 => "T3510",
        TimerId::T3516 => "T3516",
        TimerId::T3517 => "T3517",
        TimerId::T3521 => "T3521",
        TimerId::T3522 => "T3522",
        TimerId::T3550 => "T3550",
        TimerId::T3555 => "T3555",
        TimerId::T3560 => "T3560",
        TimerId::T3580(_) => "T3580",
        TimerId::T3581(_) => "T3581",
        TimerId::T3582(_) => "T3582",
        TimerId::T3591(_) => "T3591",
        TimerId::T3592(_) => "T3592",
    }
}

fn session_of(id: &TimerId) -> Option<Psi> {
    match id {
        TimerId::T3580(psi) => Some(*psi),
        TimerId::T3581(psi) => Some(*psi),
        TimerId::T3582(psi) => Some(*psi),
        TimerId::T3591(psi) => Some(*psi),
        TimerId::T3592(psi) => Some(*psi),
        _ => None,
    }
}
