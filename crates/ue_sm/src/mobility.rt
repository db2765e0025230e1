//! What the handset's mobility management tells its sessions.
ghost use Rattle.std.specs.Prelude.{◌≡◌};
ghost use Rattle.ue_sm.specs.Mobility.{all_left, all_stopped, concerns, has_head, leave_one, left_by, left_of, not_forwarded, renewed, stop_one, unforwarded};
ghost use Rattle.ue_sm.specs.Outcome.{Works};

use crate::delivery::octet_at;
use crate::work::Work;
use crate::{Cell, UeSm};
use nas_base::{Memory, Psi};
use nas_elements::Status;
use std::alloc::Global;

// 5GSM's extended protocol discriminator (TS 24.501 clause 9.2).
const EPD_5GSM: u8 = 0x2e;

// The number behind the last PDU session identity.
const BEHIND_LAST: u8 = 16;

/// What ends transactions, or sessions, without a message of the network.
#[derive(Drop)]
pub enum Ending {
    /// All transactions are abandoned.
    Abandon,
    /// All sessions are inactive.
    Clear,
    /// Sessions that the network doesn't have are inactive.
    Keep(Status),
}

// Whether an ending concerns a session.
fn concerns(ending: &Ending, psi: Psi, cell: &Cell) -> bool
    ensures { result ≡ concerns ending.now psi cell.now }
{
    match ending {
        Ending::Abandon | Ending::Clear => true,
        Ending::Keep(held) => !held.has(psi) && cell.is_held(),
    }
}

// What it leaves of such a session.
fn left_of(ending: &Ending, cell: Cell) -> Cell
    ensures { result ≡ left_of ending.now cell }
{
    match ending {
        Ending::Abandon => cell.abandoned(),
        Ending::Clear | Ending::Keep(_) => Cell::Inactive,
    }
}

impl UeSm {
    // A session is what an ending leaves of it.
    #[tactic(auto, unfolding(nas_base::specs::Branches::chosen), using(crate::proofs::CellPlaces::put_put))]
    fn leave_one(&mut self, ending: &Ending, psi: Psi)
        ensures { self.new ≡ leave_one ending.now psi self.old }
    {
        if concerns(ending, psi, self.cell(psi)) {
            let cell = self.take(psi);
            self.put(psi, left_of(ending, cell));
        }
    }

    // All sessions are.
    #[tactic(auto, unfolding(crate::specs::State::every), using(crate::proofs::Each::each_none, crate::proofs::Each::each_more))]
    fn leave_all(&mut self, ending: &Ending)
        ensures { self.new ≡ all_left ending.now self.old }
    {
        for number in 1..BEHIND_LAST {
            self.leave_one(ending, Psi(number));
        }
    }
}

impl Work {
    /// The identities of transactions begin anew.
    #[tactic(auto, unfolding(crate::specs::Mobility::renewed))]
    pub fn renewed(&mut self)
        ensures { self.new ≡ renewed self.old }
    {
        self.state.renew();
    }

    /// Transactions, or sessions, end.
    #[tactic(auto, unfolding(crate::specs::Mobility::left_by), using(crate::proofs::Stops::all_stopped_keeps))]
    pub fn left_by(&mut self, ending: &Ending) -> Result<(), Memory>
        ensures { Works self.old self.new result (left_by ending.now self.old) }
    {
        self.stop_all(ending)?;
        self.state.leave_all(ending);
        Ok(())
    }

    // The timers of those that end are stopped.
    #[tactic(auto, unfolding(crate::specs::State::every), using(crate::proofs::Each::each_none, crate::proofs::Each::each_more, crate::proofs::Stops::stop_one_keeps))]
    fn stop_all(&mut self, ending: &Ending) -> Result<(), Memory>
        ensures { Works self.old self.new result (all_stopped ending.now self.old) }
    {
        for number in 1..BEHIND_LAST {
            self.stop_one(ending, Psi(number))?;
        }
        Ok(())
    }

    // The timer of a session that ends is stopped.
    #[tactic(auto, unfolding(nas_base::specs::Branches::chosen))]
    fn stop_one(&mut self, ending: &Ending, psi: Psi) -> Result<(), Memory>
        ensures { Works self.old self.new result (stop_one ending.now psi self.old) }
    {
        if concerns(ending, psi, self.state.cell(psi)) {
            return self.stop_timer(psi);
        }
        Ok(())
    }

    /// A message of a session wasn't forwarded.
    #[tactic(auto, unfolding(crate::specs::Mobility::not_forwarded, nas_base::specs::Branches::chosen, nas_base::specs::Branches::per))]
    pub fn not_forwarded(&mut self, octets: &[u8]) -> Result<(), Memory>
        ensures { Works self.old self.new result (not_forwarded octets.now self.old) }
    {
        if !has_head(octets) {
            return Ok(());
        }
        match Psi::from_number(octet_at(octets, 1)) {
            Some(psi) => self.unforwarded(psi, octet_at(octets, 2)),
            None => Ok(()),
        }
    }

    // A message of the transaction with this identity wasn't forwarded.
    #[tactic(auto, unfolding(nas_base::specs::Branches::chosen, nas_base::specs::Branches::per), using(crate::proofs::CellPlaces::put_put, crate::proofs::Stops::stopped_keeps))]
    fn unforwarded(&mut self, psi: Psi, pti: u8) -> Result<(), Memory>
        ensures { Works self.old self.new result (unforwarded psi pti self.old) }
    {
        let Some(transaction) = self.state.cell(psi).transaction() else {
            return Ok(());
        };
        if transaction.pti().0 != pti {
            return Ok(());
        }
        self.stop_timer(psi)?;
        let cell = self.state.take(psi);
        self.state.put(psi, cell.unanswered());
        Ok(())
    }
}

// Whether octets have the head of a 5GSM message.
fn has_head(octets: &[u8]) -> bool
    ensures { result ≡ has_head octets.now }
{
    octets.len() >= 4 && octet_at(octets, 0) == EPD_5GSM
}
