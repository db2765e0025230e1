//! The timers of the handset's transactions.
ghost use Rattle.std.specs.Prelude.{◌≡◌, ◌<◌, IfSome};
ghost use Rattle.ue_sm.specs.Cells.{resent, transaction_of, unanswered};
ghost use Rattle.ue_sm.specs.Outcome.{Works};
ghost use Rattle.ue_sm.specs.Timers.{awaited, expired, is_establishing, is_modifying, is_releasing};
ghost use Rattle.ue_sm.specs.Work.{cell, put, start, tell};

use crate::work::{Work, carried};
use crate::{Cell, SmOut};
use nas_base::{Memory, Psi};
use nas_timers::TimerId;
use std::alloc::Global;

// How often a request is sent at most.
const SENDINGS: u8 = 5;

// Whether establishment is under way.
fn is_establishing(cell: &Cell) -> bool
    ensures { result ≡ is_establishing cell.now }
{
    matches!(cell, Cell::ActivePending(_))
}

// Whether modification is.
fn is_modifying(cell: &Cell) -> bool
    ensures { result ≡ is_modifying cell.now }
{
    matches!(cell, Cell::ModificationPending(_, _))
}

// Whether release is.
fn is_releasing(cell: &Cell) -> bool
    ensures { result ≡ is_releasing cell.now }
{
    matches!(cell, Cell::InactivePending(_, _))
}

impl Work {
    /// A timer expired. One whose transaction has ended finds none.
    #[tactic(auto, unfolding(crate::specs::Timers::expired))]
    pub fn expired(&mut self, alloc: Global, id: TimerId) -> Result<(), Memory>
        ensures { Works self.old self.new result (expired id self.old) }
    {
        match id {
            TimerId::T3580(psi) => {
                let is_open = is_establishing(self.state.cell(psi));
                self.awaited(alloc, is_open, psi, id)
            }
            TimerId::T3581(psi) => {
                let is_open = is_modifying(self.state.cell(psi));
                self.awaited(alloc, is_open, psi, id)
            }
            TimerId::T3582(psi) => {
                let is_open = is_releasing(self.state.cell(psi));
                self.awaited(alloc, is_open, psi, id)
            }
            _ => Ok(()),
        }
    }

    // The timer of the transaction that is open, if it is that one's.
    #[tactic(auto, unfolding(nas_base::specs::Branches::chosen, nas_base::specs::Branches::per))]
    fn awaited(&mut self, alloc: Global, is_open: bool, psi: Psi, id: TimerId) -> Result<(), Memory>
        ensures { Works self.old self.new result (awaited is_open psi id self.old) }
    {
        if !is_open {
            return Ok(());
        }
        let Some(transaction) = self.state.cell(psi).transaction() else {
            return Ok(());
        };
        if transaction.sendings() >= SENDINGS {
            self.give_up(psi);
            return Ok(());
        }
        let carry = carried(alloc, psi, transaction)?;
        self.send_again(psi, id, carry)
    }

    // The transaction ends without its answer.
    #[tactic(auto, using(crate::proofs::CellPlaces::put_put))]
    fn give_up(&mut self, psi: Psi)
        ensures { self.new ≡ put psi (unanswered (cell psi self.old)) self.old }
    {
        let cell = self.state.take(psi);
        self.state.put(psi, cell.unanswered());
    }

    // The request goes out once more, and its timer is started.
    #[tactic(auto, using(crate::proofs::CellPlaces::put_put))]
    fn send_again(&mut self, psi: Psi, id: TimerId, carry: SmOut) -> Result<(), Memory>
        requires { IfSome (transaction_of (cell psi self.old)) (λ t. t.sendings < 5) }
        ensures { Works self.old self.new result (start id (tell carry (put psi (resent (cell psi self.old)) self.old))) }
    {
        self.tell(carry)?;
        self.start(id)?;
        let cell = self.state.take(psi);
        self.state.put(psi, cell.resent());
        Ok(())
    }
}
