//! What the SMF keeps of a PDU session.
ghost use Rattle.std.specs.Prelude.{◌≡◌, IfOk};
ghost use Rattle.smf_core.specs.Kept.{given_out, sent_of, timer_of, word_of};

use crate::kept_message::KeptMessage;
use nas_base::{Memory, SmfWord};
use nas_elements::Ambr;
use nas_qos::Rules;
use nas_timers::TimerId;
use sm_messages::Session;
use std::alloc::Global;

/// A command that is open: the message that is sent again while it isn't answered, its timer, and how often it was
/// sent, 1 to 5 (TS 24.501 clauses 6.3.2 and 6.3.3). Only a session in Modifying or in Releasing has one.
#[derive(Drop)]
pub struct Command {
    pub message: KeptMessage,
    pub timer: TimerId,
    pub sendings: u8,
}

/// The last MODIFICATION COMMAND of a session, which was answered, and how often it was sent.
#[derive(Drop)]
pub struct LastCommand {
    pub message: KeptMessage,
    pub sendings: u8,
}

/// A modification that isn't answered yet: its command, and the QoS rules and the
/// session AMBR that the session has by it.
#[derive(Drop)]
pub struct Modification {
    pub command: Command,
    pub rules: Rules,
    pub ambr: Ambr,
}

/// The state of a session at the SMF (TS 24.501 clause 6.1.3.3), with the command that is open in it.
#[derive(Drop)]
pub enum Phase {
    /// PDU SESSION ACTIVE; its last command, if it has had one.
    Active(Option<LastCommand>),
    /// PDU SESSION MODIFICATION PENDING.
    Modifying(Modification),
    /// Active, while copies of the last command or of its answer may still be under way. No command is open.
    Settling(LastCommand),
    /// PDU SESSION INACTIVE PENDING.
    Releasing(Command),
}

/// A session, and its state.
#[derive(Drop)]
pub struct Held {
    pub session: Session,
    pub phase: Phase,
}

impl Command {
    /// An equal value, or `Memory`.
    pub fn copy(&self, alloc: Global) -> Result<Command, Memory>
        ensures { IfOk result (λ copy. copy ≡ self.now) }
    {
        Ok(Command {
            message: self.message.copy(alloc)?,
            timer: self.timer,
            sendings: self.sendings,
        })
    }
}

impl LastCommand {
    /// An equal value, or `Memory`.
    pub fn copy(&self, alloc: Global) -> Result<LastCommand, Memory>
        ensures { IfOk result (λ copy. copy ≡ self.now) }
    {
        Ok(LastCommand {
            message: self.message.copy(alloc)?,
            sendings: self.sendings,
        })
    }
}

impl Modification {
    /// An equal value, or `Memory`.
    pub fn copy(&self, alloc: Global) -> Result<Modification, Memory>
        ensures { IfOk result (λ copy. copy ≡ self.now) }
    {
        Ok(Modification {
            command: self.command.copy(alloc)?,
            rules: self.rules.copy(alloc)?,
            ambr: self.ambr,
        })
    }
}

// An equal value, where there is one, or `Memory`.
fn copied_last(alloc: Global, last: &Option<LastCommand>) -> Result<Option<LastCommand>, Memory>
    ensures { IfOk result (λ copy. copy ≡ last.now) }
{
    match last {
        Some(last) => Ok(Some(last.copy(alloc)?)),
        None => Ok(None),
    }
}

// How often the last command was sent.
fn given_out(last: &Option<LastCommand>) -> u8
    ensures { result ≡ given_out last.now }
{
    match last {
        Some(last) => last.sendings,
        None => 0,
    }
}

impl Phase {
    /// Its word.
    pub fn word(&self) -> SmfWord
        ensures { result ≡ word_of self.now }
    {
        match self {
            Phase::Active(_) => SmfWord::Active,
            Phase::Modifying(_) => SmfWord::Modifying,
            Phase::Settling(_) => SmfWord::Settling,
            Phase::Releasing(_) => SmfWord::Releasing,
        }
    }

    /// The timer of the command that is open.
    pub fn timer(&self) -> Option<TimerId>
        ensures { result ≡ timer_of self.now }
    {
        match self {
            Phase::Active(_) | Phase::Settling(_) => None,
            Phase::Modifying(modification) => Some(modification.command.timer),
            Phase::Releasing(command) => Some(command.timer),
        }
    }

    /// How often the session's last command was given out, 0 where it has had none.
    pub fn sent(&self) -> u8
        ensures { result ≡ sent_of self.now }
    {
        match self {
            Phase::Active(last) => given_out(last),
            Phase::Modifying(modification) => modification.command.sendings,
            Phase::Settling(last) => last.sendings,
            Phase::Releasing(command) => command.sendings,
        }
    }

    /// An equal value, or `Memory`.
    pub fn copy(&self, alloc: Global) -> Result<Phase, Memory>
        ensures { IfOk result (λ copy. copy ≡ self.now) }
    {
        match self {
            Phase::Active(last) => Ok(Phase::Active(copied_last(alloc, last)?)),
            Phase::Modifying(modification) => Ok(Phase::Modifying(modification.copy(alloc)?)),
            Phase::Settling(last) => Ok(Phase::Settling(last.copy(alloc)?)),
            Phase::Releasing(command) => Ok(Phase::Releasing(command.copy(alloc)?)),
        }
    }
}

impl Held {
    /// An equal value, or `Memory`.
    pub fn copy(&self, alloc: Global) -> Result<Held, Memory>
        ensures { IfOk result (λ copy. copy ≡ self.now) }
    {
        Ok(Held {
            session: self.session.copy(alloc)?,
            phase: self.phase.copy(alloc)?,
        })
    }
}
