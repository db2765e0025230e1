//! What goes out of a handset's 5GMM, as text; mobility_calls lists its forms.

use crate::handset_texts::{spent_text, wrong_state_text};
use crate::security_texts::{add, passed_text, sent_text, took_text};
use nas_base::{Octets, Writer};
use nas_elements::Status;
use nas_timers::TimerId;
use probe_words::{Refusal, literal, text, word};
use std::alloc::Global;
use ue_mm::{StepRefusal, UeOut, UeOuts};

/// What went out, with a comma behind each.
pub fn outs_text(alloc: Global, outs: &UeOuts) -> Result<String, Refusal> {
    let mut line = String::new(alloc);
    for out in &outs.items {
        add(&mut line, out_text(alloc, out)?)?;
    }
    Ok(line)
}

/// Why a command was refused, with a comma behind it.
pub fn refusal_text(alloc: Global, refusal: StepRefusal) -> Result<String, Refusal> {
    match refusal {
        StepRefusal::WrongState { state } => wrong_state_text(alloc, state),
        StepRefusal::Spent { next } => spent_text(alloc, next),
        StepRefusal::Memory => Err(Refusal::Memory),
    }
}

// One thing that went out.
fn out_text(alloc: Global, out: &UeOut) -> Result<String, Refusal> {
    match out {
        UeOut::Send {
            fresh,
            octets,
            pass,
        } => sent_text(alloc, *fresh, octets, pass),
        UeOut::Passed(pass) => passed_text(alloc, pass),
        UeOut::Took(context) => took_text(alloc, context),
        UeOut::ToSession(octets) => octets_text(alloc, "to_session", octets),
        UeOut::NotForwarded(octets) => octets_text(alloc, "not_forwarded", octets),
        UeOut::Abandon => literal(alloc, "abandon"),
        UeOut::Clear => literal(alloc, "clear"),
        UeOut::Keep(held) => keep_text(alloc, held),
        UeOut::Start { id, at } => start_text(alloc, id, at.0),
        UeOut::Stop(id) => stop_text(alloc, id),
    }
}

fn octets_text(alloc: Global, name: &str, octets: &Octets) -> Result<String, Refusal> {
    let octets = text(alloc, octets.as_slice())?;
    word(format!(in alloc; "{name}:{octets}"))
}

fn keep_text(alloc: Global, held: &Status) -> Result<String, Refusal> {
    let mut out = Writer::new();
    if held.write(&mut out).is_err() {
        return Err(Refusal::Unreadable);
    }
    let held = text(alloc, out.octets())?;
    word(format!(in alloc; "keep:{held}"))
}

fn start_text(alloc: Global, id: &TimerId, at: u64) -> Result<String, Refusal> {
    word(format!(in alloc; "start:{id:?}:{at}"))
}

fn stop_text(alloc: Global, id: &TimerId) -> Result<String, Refusal> {
    word(format!(in alloc; "stop:{id:?}"))
}
