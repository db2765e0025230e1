//! The words that are given to a handset; handset_calls lists them.

use nas_base::{Kind, Moment};
use nas_handset::UeCommand;
use probe_words::{Refusal, moment, octets};
use std::alloc::Global;

/// What a word gives.
#[derive(Drop)]
pub enum Input {
    Command(UeCommand),
    /// Octets reach the handset.
    Octets(Vec<u8>),
    /// The moment is told.
    Tick(Moment),
    /// The connection is lost.
    Drop,
    /// The handset is switched off and on.
    Restart,
    /// A copy of the handset goes on in its place.
    Copy,
}

/// What a word gives.
pub fn read_input(alloc: Global, word: &str) -> Result<Input, Refusal> {
    match word.split_once(":") {
        Some(("octets", value)) => Ok(Input::Octets(octets(alloc, value)?)),
        Some(("tick", value)) => Ok(Input::Tick(moment(value)?)),
        Some(_) => Err(Refusal::Unreadable),
        None => bare(word),
    }
}

// The input of a word that stands alone.
fn bare(word: &str) -> Result<Input, Refusal> {
    match word {
        "drop" => Ok(Input::Drop),
        "restart" => Ok(Input::Restart),
        "copy" => Ok(Input::Copy),
        _ => Ok(Input::Command(command(word)?)),
    }
}

/// A command to a handset.
pub fn command(word: &str) -> Result<UeCommand, Refusal> {
    match word {
        "register" => Ok(UeCommand::Register(Kind::Initial)),
        "mobility" => Ok(UeCommand::Register(Kind::Mobility)),
        "periodic" => Ok(UeCommand::Register(Kind::Periodic)),
        "service" => Ok(UeCommand::Service),
        "deregister" => Ok(UeCommand::Deregister { switch_off: false }),
        "switch-off" => Ok(UeCommand::Deregister { switch_off: true }),
        _ => Err(Refusal::Unreadable),
    }
}
