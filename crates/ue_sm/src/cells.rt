//! A PDU session of a handset in one of its states.
ghost use Rattle.std.specs.Prelude.{◌≡◌, IfOk, option_map};
ghost use Rattle.ue_sm.specs.Cells.{held_of, is_held, pti_case, session_of, timer_of, transaction_of, word_of};

use crate::Transaction;
use crate::messages::copied;
use collision_rules::PtiCase;
use nas_base::{Memory, Psi, SmWord};
use nas_timers::TimerId;
use sm_messages::{PduSessionModificationCommand, Session};
use std::alloc::Global;

/// What a PDU SESSION MODIFICATION COMMAND was answered with (TS 24.501 clauses 6.3.2.3, 6.3.2.4 and 7.3.1).
#[derive(Clone, Copy, Debug, PartialEq, Eq)]
pub enum Answer {
    /// PDU SESSION MODIFICATION COMPLETE.
    Complete,
    /// PDU SESSION MODIFICATION COMMAND REJECT with this cause.
    Refused(u8),
    /// 5GSM STATUS: its transaction is unknown.
    Mismatch,
}

/// The last command that a session answered, with the identity of its transaction, and the answer, which it gets again.
#[derive(Drop)]
pub struct Answered {
    pub pti: u8,
    pub command: PduSessionModificationCommand,
    pub answer: Answer,
}

/// A session that is there, with the last command that it answered.
#[derive(Drop)]
pub struct Held {
    pub session: Session,
    pub answered: Option<Answered>,
}

/// A PDU session in one of its states, with the transaction that is open in it (TS 24.501 clause 6.1.3.2).
#[derive(Drop)]
pub enum Cell {
    Inactive,
    ActivePending(Transaction),
    Active(Held),
    ModificationPending(Held, Transaction),
    InactivePending(Held, Transaction),
}

impl Answered {
    /// An equal value.
    ///
    /// # Errors
    ///
    /// `Memory`.
    pub fn copy(&self, alloc: Global) -> Result<Answered, Memory>
        ensures { IfOk result (λ copy. copy ≡ self.now) }
    {
        let rules = match &self.command.rules {
            Some(rules) => Some(copied(alloc, rules)?),
            None => None,
        };
        Ok(Answered {
            pti: self.pti,
            command: PduSessionModificationCommand {
                cause: self.command.cause,
                ambr: self.command.ambr,
                rules,
            },
            answer: self.answer,
        })
    }
}

impl Held {
    /// An equal value.
    ///
    /// # Errors
    ///
    /// `Memory`.
    pub fn copy(&self, alloc: Global) -> Result<Held, Memory>
        ensures { IfOk result (λ copy. copy ≡ self.now) }
    {
        let session = self.session.copy(alloc)?;
        let answered = match &self.answered {
            Some(answered) => Some(answered.copy(alloc)?),
            None => None,
        };
        Ok(Held { session, answered })
    }
}

impl Cell {
    /// Its word.
    pub fn word(&self) -> SmWord
        ensures { result ≡ word_of self.now }
    {
        match self {
            Cell::Inactive => SmWord::Inactive,
            Cell::ActivePending(_) => SmWord::ActivePending,
            Cell::Active(_) => SmWord::Active,
            Cell::ModificationPending(_, _) => SmWord::ModificationPending,
            Cell::InactivePending(_, _) => SmWord::InactivePending,
        }
    }

    /// What is held of a session that is there.
    pub fn held(&self) -> Option<&Held>
        ensures { option_map (λ h. h.now) result ≡ held_of self.now }
    {
        match self {
            Cell::Inactive | Cell::ActivePending(_) => None,
            Cell::Active(held)
            | Cell::ModificationPending(held, _)
            | Cell::InactivePending(held, _) => Some(held),
        }
    }

    /// The session, where it is there.
    pub fn session(&self) -> Option<&Session>
        ensures { option_map (λ s. s.now) result ≡ session_of self.now }
    {
        match self.held() {
            Some(held) => Some(&held.session),
            None => None,
        }
    }

    /// Whether a session is there.
    pub fn is_held(&self) -> bool
        ensures { result ≡ is_held self.now }
    {
        match self {
            Cell::Inactive | Cell::ActivePending(_) => false,
            Cell::Active(_) | Cell::ModificationPending(_, _) | Cell::InactivePending(_, _) => true,
        }
    }

    /// The transaction that is open.
    pub fn transaction(&self) -> Option<&Transaction>
        ensures { option_map (λ t. t.now) result ≡ transaction_of self.now }
    {
        match self {
            Cell::Inactive | Cell::Active(_) => None,
            Cell::ActivePending(transaction)
            | Cell::ModificationPending(_, transaction)
            | Cell::InactivePending(_, transaction) => Some(transaction),
        }
    }

    /// The timer of the transaction that is open.
    pub fn timer(&self, psi: Psi) -> Option<TimerId>
        ensures { result ≡ timer_of psi self.now }
    {
        match self {
            Cell::Inactive | Cell::Active(_) => None,
            Cell::ActivePending(_) => Some(TimerId::T3580(psi)),
            Cell::ModificationPending(_, _) => Some(TimerId::T3581(psi)),
            Cell::InactivePending(_, _) => Some(TimerId::T3582(psi)),
        }
    }

    /// Whose transaction the identity in a message's head names.
    #[tactic(auto, unfolding(nas_base::specs::Branches::chosen, nas_base::specs::Branches::per))]
    pub fn pti_case(&self, pti: u8) -> PtiCase
        ensures { result ≡ pti_case pti self.now }
    {
        if pti == 0 {
            return PtiCase::None;
        }
        match self.transaction() {
            Some(transaction) if transaction.pti().0 == pti => PtiCase::Mine,
            _ => PtiCase::Foreign,
        }
    }

    /// An equal value.
    ///
    /// # Errors
    ///
    /// `Memory`.
    pub fn copy(&self, alloc: Global) -> Result<Cell, Memory>
        ensures { IfOk result (λ copy. copy ≡ self.now) }
    {
        let copy = match self {
            Cell::Inactive => Cell::Inactive,
            Cell::ActivePending(transaction) => Cell::ActivePending(transaction.copy(alloc)?),
            Cell::Active(held) => Cell::Active(held.copy(alloc)?),
            Cell::ModificationPending(held, transaction) => {
                let transaction = transaction.copy(alloc)?;
                Cell::ModificationPending(held.copy(alloc)?, transaction)
            }
            Cell::InactivePending(held, transaction) => {
                let transaction = transaction.copy(alloc)?;
                Cell::InactivePending(held.copy(alloc)?, transaction)
            }
        };
        Ok(copy)
    }
}
