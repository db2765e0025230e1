//! The words that are given to a handset's sessions; ue_calls lists them.
ghost use Rattle.std.specs.Prelude.{◌≤◌};

use nas_base::{Moment, Octets, Psi};
use nas_elements::{Dnn, Status};
use nas_qos::{OpsRefusal, RuleOps, read_ops};
use probe_words::{Refusal, kept, moment, octets, session, timer};
use std::alloc::Global;
use ue_sm::{SessionKind, SmCommand, SmInput};

/// What a word gives.
#[derive(Drop)]
pub enum Given {
    /// The moment of what follows.
    Now(Moment),
    /// A copy goes on.
    Copy,
    Input(SmInput),
}

/// What a word gives.
pub fn read_given(alloc: Global, word: &str) -> Result<Given, Refusal> {
    match word.split_once(":") {
        Some(("now", value)) => Ok(Given::Now(moment(value)?)),
        Some((name, value)) => Ok(Given::Input(input_of(alloc, name, value)?)),
        None => bare(word),
    }
}

fn input_of(alloc: Global, name: &str, value: &str) -> Result<SmInput, Refusal> {
    match name {
        "frame" => Ok(SmInput::Frame(message(alloc, value)?)),
        "not_forwarded" => Ok(SmInput::NotForwarded(message(alloc, value)?)),
        "expired" => Ok(SmInput::Expired(timer(value)?)),
        "keep" => Ok(SmInput::Keep(status(alloc, value)?)),
        _ => Ok(SmInput::Command(command(alloc, name, value)?)),
    }
}

// What a word gives that stands alone.
fn bare(word: &str) -> Result<Given, Refusal> {
    match word {
        "copy" => Ok(Given::Copy),
        "new_context" => Ok(Given::Input(SmInput::NewContext)),
        "abandon" => Ok(Given::Input(SmInput::Abandon)),
        "clear" => Ok(Given::Input(SmInput::Clear)),
        _ => Err(Refusal::Unreadable),
    }
}

fn command(alloc: Global, name: &str, value: &str) -> Result<SmCommand, Refusal> {
    match name {
        "establish" => establish(alloc, value),
        "modify" => modify(alloc, value),
        "release" => Ok(SmCommand::Release {
            psi: session(value)?,
        }),
        _ => Err(Refusal::Unreadable),
    }
}

fn establish(alloc: Global, words: &str) -> Result<SmCommand, Refusal> {
    let Some((number, words)) = words.split_once(":") else {
        return Err(Refusal::Unreadable);
    };
    let Some((kind, name)) = words.split_once(":") else {
        return Err(Refusal::Unreadable);
    };
    Ok(SmCommand::Establish {
        psi: session(number)?,
        kind: session_kind(kind)?,
        dnn: network(alloc, name)?,
    })
}

fn modify(alloc: Global, words: &str) -> Result<SmCommand, Refusal> {
    let Some((number, operations)) = words.split_once(":") else {
        return Err(Refusal::Unreadable);
    };
    let psi = session(number)?;
    let ops = ops(alloc, operations)?;
    Ok(SmCommand::Modify { psi, ops })
}

fn session_kind(word: &str) -> Result<SessionKind, Refusal> {
    match word.parse::<u8>() {
        Ok(kind) if 1 <= kind && kind <= 3 => Ok(SessionKind(kind)),
        _ => Err(Refusal::Unreadable),
    }
}

/// Operations on QoS rules.
pub fn ops(alloc: Global, word: &str) -> Result<RuleOps, Refusal> {
    match read_ops(alloc, octets(alloc, word)?.as_slice()) {
        Ok(ops) => Ok(ops),
        Err(OpsRefusal::Syntax { at: _ }) => Err(Refusal::Unreadable),
        Err(OpsRefusal::Memory) => Err(Refusal::Memory),
    }
}

fn status(alloc: Global, word: &str) -> Result<Status, Refusal> {
    Status::read(&octets(alloc, word)?).map_err(|_| Refusal::Unreadable)
}

/// A message.
pub fn message(alloc: Global, word: &str) -> Result<Octets, Refusal> {
    kept(alloc, &octets(alloc, word)?)
}

fn network(alloc: Global, word: &str) -> Result<Dnn, Refusal> {
    Dnn::read(&octets(alloc, word)?).map_err(|_| Refusal::Unreadable)
}
