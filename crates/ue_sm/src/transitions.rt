//! What becomes of a session: where its transaction begins, is sent again or ends, and
//! where it answers a command of the network.
ghost use Rattle.std.specs.Prelude.{◌≡◌, ◌<◌, IfSome};
ghost use Rattle.ue_sm.specs.Cells.{abandoned, active_unless_unknown, ambr_by, answering, awaiting_modification, awaiting_release, completed, modified, refused, rejected, resent, transaction_of, unanswered, with_answer};

use crate::{Answered, Cell, Held, Transaction};
use nas_base::sm_cause::INVALID_PDU_SESSION_IDENTITY;
use nas_elements::Ambr;
use nas_qos::Rules;
use sm_messages::{PduSessionModificationCommand, Session};

impl Held {
    // The same session, which answered this command last.
    fn answering(self, answered: Answered) -> Held
        ensures { result ≡ with_answer answered self }
    {
        Held {
            session: self.session,
            answered: Some(answered),
        }
    }

    // What the command makes of it, with these rules.
    fn modified(self, answered: Answered, rules: Rules) -> Held
        ensures { result ≡ modified answered rules self }
    {
        let Held {
            session,
            answered: _before,
        } = self;
        let ambr = ambr_by(&answered.command, &session);
        Held {
            session: with_rules(session, ambr, rules),
            answered: Some(answered),
        }
    }
}

// The AMBR that a command tells, or the session's.
#[tactic(auto, unfolding(nas_base::specs::Branches::per))]
fn ambr_by(command: &PduSessionModificationCommand, session: &Session) -> Ambr
    ensures { result ≡ ambr_by command.now session.now }
{
    match command.ambr {
        Some(ambr) => ambr,
        None => session.ambr,
    }
}

// A session with another AMBR and other rules.
fn with_rules(session: Session, ambr: Ambr, rules: Rules) -> Session
    ensures { result ≡ record session { ambr = ambr; rules = rules } }
{
    let Session {
        kind,
        address,
        dnn,
        slice,
        ambr: _,
        rules: _before,
    } = session;
    Session {
        kind,
        address,
        dnn,
        slice,
        ambr,
        rules,
    }
}

// A session whose request was rejected is as it was, or no more where the network knows of none.
#[tactic(auto, unfolding(nas_base::specs::Branches::chosen))]
fn active_unless_unknown(cause: u8, held: Held) -> Cell
    ensures { result ≡ active_unless_unknown cause held }
{
    if cause == INVALID_PDU_SESSION_IDENTITY {
        Cell::Inactive
    } else {
        Cell::Active(held)
    }
}

impl Cell {
    /// What is left where the transaction that is open ends without its answer.
    pub fn unanswered(self) -> Cell
        ensures { result ≡ unanswered self }
    {
        match self {
            Cell::Inactive => Cell::Inactive,
            Cell::ActivePending(_transaction) => Cell::Inactive,
            Cell::Active(held) => Cell::Active(held),
            Cell::ModificationPending(held, _transaction) => Cell::Active(held),
            Cell::InactivePending(_held, _transaction) => Cell::Inactive,
        }
    }

    /// What is left where the transaction that is open is abandoned.
    pub fn abandoned(self) -> Cell
        ensures { result ≡ abandoned self }
    {
        match self {
            Cell::Inactive => Cell::Inactive,
            Cell::ActivePending(_transaction) => Cell::Inactive,
            Cell::Active(held) => Cell::Active(held),
            Cell::ModificationPending(held, _transaction) => Cell::Active(held),
            Cell::InactivePending(held, _transaction) => Cell::Active(held),
        }
    }

    /// The request of the transaction that is open was sent once more.
    pub(crate) fn resent(self) -> Cell
        requires { IfSome (transaction_of self) (λ t. t.sendings < 5) }
        ensures { result ≡ resent self }
    {
        match self {
            Cell::Inactive => Cell::Inactive,
            Cell::ActivePending(transaction) => Cell::ActivePending(transaction.sent_again()),
            Cell::Active(held) => Cell::Active(held),
            Cell::ModificationPending(held, transaction) => {
                Cell::ModificationPending(held, transaction.sent_again())
            }
            Cell::InactivePending(held, transaction) => {
                Cell::InactivePending(held, transaction.sent_again())
            }
        }
    }

    /// A request to modify it, where it is active, awaits its answer.
    pub fn awaiting_modification(self, new: Transaction) -> Cell
        ensures { result ≡ awaiting_modification new self }
    {
        match self {
            Cell::Active(held) => Cell::ModificationPending(held, new),
            other => other,
        }
    }

    /// A request to release it, where it is active, awaits its answer.
    pub fn awaiting_release(self, new: Transaction) -> Cell
        ensures { result ≡ awaiting_release new self }
    {
        match self {
            Cell::Active(held) => Cell::InactivePending(held, new),
            other => other,
        }
    }

    /// Such a request was rejected with this cause.
    pub fn rejected(self, cause: u8) -> Cell
        ensures { result ≡ rejected cause self }
    {
        match self {
            Cell::Inactive => Cell::Inactive,
            Cell::ActivePending(_transaction) => Cell::Inactive,
            Cell::Active(held) => Cell::Active(held),
            Cell::ModificationPending(held, _transaction) => active_unless_unknown(cause, held),
            Cell::InactivePending(held, _transaction) => active_unless_unknown(cause, held),
        }
    }

    /// A command was applied, and these are the rules by now.
    pub fn completed(self, answered: Answered, rules: Rules) -> Cell
        ensures { result ≡ completed answered rules self }
    {
        match self {
            Cell::Inactive => Cell::Inactive,
            Cell::ActivePending(_transaction) => Cell::Inactive,
            Cell::Active(held) => Cell::Active(held.modified(answered, rules)),
            Cell::ModificationPending(held, _transaction) => {
                Cell::Active(held.modified(answered, rules))
            }
            Cell::InactivePending(held, _transaction) => {
                Cell::Active(held.modified(answered, rules))
            }
        }
    }

    /// A command was refused.
    pub fn refused(self, answered: Answered) -> Cell
        ensures { result ≡ refused answered self }
    {
        match self {
            Cell::Inactive => Cell::Inactive,
            Cell::ActivePending(_transaction) => Cell::Inactive,
            Cell::Active(held) => Cell::Active(held.answering(answered)),
            Cell::ModificationPending(held, _transaction) => {
                Cell::Active(held.answering(answered))
            }
            Cell::InactivePending(held, _transaction) => Cell::Active(held.answering(answered)),
        }
    }

    /// A command is the last that it answered.
    pub fn answering(self, answered: Answered) -> Cell
        ensures { result ≡ answering answered self }
    {
        match self {
            Cell::Active(held) => Cell::Active(held.answering(answered)),
            Cell::ModificationPending(held, transaction) => {
                Cell::ModificationPending(held.answering(answered), transaction)
            }
            other => other,
        }
    }
}
