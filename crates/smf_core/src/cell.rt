//! What the SMF keeps under a PDU session identity.
ghost use Rattle.std.specs.Prelude.{◌≡◌, IfOk};
ghost use Rattle.smf_core.specs.State.{vacant};

use crate::held::Held;
use crate::kept_message::KeptMessage;
use nas_base::Memory;
use nas_security::Challenge;
use std::alloc::Global;

/// The last answer to a request for a new session, PDU SESSION ESTABLISHMENT ACCEPT or REJECT, and the challenge of the
/// context that the request came under.
#[derive(Drop)]
pub struct Answer {
    pub challenge: Challenge,
    pub message: KeptMessage,
}

/// What is kept under an identity: the session, if there is one, and the last answer to its establishment, until
/// another context is in use.
#[derive(Drop)]
pub struct Cell {
    pub held: Option<Held>,
    pub answer: Option<Answer>,
}

impl Answer {
    /// An equal value, or `Memory`.
    pub fn copy(&self, alloc: Global) -> Result<Answer, Memory>
        ensures { IfOk result (λ copy. copy ≡ self.now) }
    {
        Ok(Answer {
            challenge: self.challenge,
            message: self.message.copy(alloc)?,
        })
    }
}

// An equal value, where there is one, or `Memory`.
fn copied_held(alloc: Global, held: &Option<Held>) -> Result<Option<Held>, Memory>
    ensures { IfOk result (λ copy. copy ≡ held.now) }
{
    match held {
        Some(held) => Ok(Some(held.copy(alloc)?)),
        None => Ok(None),
    }
}

impl Cell {
    /// No session, and no answer kept.
    pub fn vacant() -> Cell
        ensures { result ≡ vacant }
    {
        Cell {
            held: None,
            answer: None,
        }
    }

    /// Its answer once more, where there is one, or `Memory`.
    pub fn copied_answer(&self, alloc: Global) -> Result<Option<Answer>, Memory>
        ensures { IfOk result (λ copy. copy ≡ self.now.answer) }
    {
        match &self.answer {
            Some(answer) => Ok(Some(answer.copy(alloc)?)),
            None => Ok(None),
        }
    }

    /// Its session once more, where there is one, or `Memory`.
    pub fn copied_held(&self, alloc: Global) -> Result<Option<Held>, Memory>
        ensures { IfOk result (λ copy. copy ≡ self.now.held) }
    {
        copied_held(alloc, &self.held)
    }

    /// An equal value, or `Memory`.
    pub fn copy(&self, alloc: Global) -> Result<Cell, Memory>
        ensures { IfOk result (λ copy. copy ≡ self.now) }
    {
        Ok(Cell {
            held: self.copied_held(alloc)?,
            answer: self.copied_answer(alloc)?,
        })
    }
}
