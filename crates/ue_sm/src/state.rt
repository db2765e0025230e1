//! What a handset keeps of its sessions.
ghost use Rattle.std.specs.Prelude.{◌≡◌, ◌+◌, ◌<◌, IfOk, length};
ghost use Rattle.ue_sm.specs.State.{cell_of, first, inactive, next_pti, put_cell};
ghost use Rattle.ue_sm.specs.declared.cells.Cell.TheVariants.{Inactive};

use crate::Cell;
use nas_base::{Memory, Psi, Pti};
use nas_timers::Durations;
use std::alloc::Global;
use std::marker::Model;
use std::mem;

// The number of sessions.
const SESSIONS: usize = 15;

/// The PDU sessions 1 to 15 of a handset (TS 24.501 clause 6.1.3.2), how long their timers run, and the next identity
/// of a transaction, 255 where 254, the last one, was used. A session is found by its number.
#[derive(Drop)]
pub struct UeSm {
    durations: Durations,
    next: u8,
    cells: Vec<Cell>,
}

impl Model for UeSm {
    ghost use Rattle.ue_sm.specs.State.{AreSessions, SmState};

    ghost Value = { SmState };

    ghost view = { λ s. record { durations = s.durations; next = s.next; cells = s.cells.items } };

    ghost invariant = { λ s. AreSessions s.next s.cells.items };
}

impl UeSm {
    /// Fifteen inactive sessions.
    ///
    /// # Errors
    ///
    /// `Memory`.
    pub fn new(alloc: Global, durations: &Durations) -> Result<UeSm, Memory>
        ensures { IfOk result (λ sm. sm ≡ first durations.now) }
    {
        let cells = inactive_cells(alloc)?;
        Ok(UeSm {
            durations: *durations,
            next: 1,
            cells,
        })
    }

    /// An equal value.
    ///
    /// # Errors
    ///
    /// `Memory`.
    pub fn copy(&self, alloc: Global) -> Result<UeSm, Memory>
        ensures { IfOk result (λ copy. copy ≡ self.now) }
    {
        let cells = copied_cells(alloc, self.cells.as_slice())?;
        Ok(UeSm {
            durations: self.durations,
            next: self.next,
            cells,
        })
    }

    // Reading them shows that they are fifteen.
    pub(crate) fn are_fifteen(&self)
        ensures { length self.now.cells ≡ 15 }
    {
        let _cells = &self.cells;
    }

    /// How long the timers run.
    pub(crate) fn durations(&self) -> Durations
        ensures { result ≡ self.now.durations }
    {
        self.durations
    }

    /// The next identity of a transaction, or None exactly where the last one was used.
    pub(crate) fn next_pti(&self) -> Option<Pti>
        ensures { result ≡ next_pti self.now }
    {
        if self.next == 255 {
            return None;
        }
        Some(Pti(self.next))
    }

    /// The next identity is used.
    pub(crate) fn use_pti(&mut self)
        requires { self.old.next < 255 }
        ensures { self.new ≡ record self.old { next = self.old.next + 1 } }
    {
        self.next += 1;
    }

    /// Identities begin anew.
    pub(crate) fn renew(&mut self)
        ensures { self.new ≡ record self.old { next = 1 } }
    {
        self.next = 1;
    }

    /// The session of an identity.
    pub(crate) fn cell(&self, psi: Psi) -> &Cell
        ensures { result.now ≡ cell_of psi self.now }
    {
        &self.cells[usize::from(psi.0) - 1]
    }

    /// Another in its place.
    pub(crate) fn put(&mut self, psi: Psi, cell: Cell)
        ensures { self.new ≡ put_cell psi cell self.old }
    {
        self.cells[usize::from(psi.0) - 1] = cell;
    }

    /// The session of an identity, taken out; an inactive one stays in its place.
    pub(crate) fn take(&mut self, psi: Psi) -> Cell
        ensures value { result ≡ cell_of psi self.old }
        ensures after { self.new ≡ put_cell psi Inactive self.old }
    {
        mem::replace(&mut self.cells[usize::from(psi.0) - 1], Cell::Inactive)
    }
}

// Fifteen inactive sessions.
#[tactic(auto, using(crate::proofs::CellPlaces::inactive_more))]
fn inactive_cells(alloc: Global) -> Result<Vec<Cell>, Memory>
    ensures { IfOk result (λ cells. cells.items ≡ inactive 15) }
{
    let mut cells = Vec::new(alloc);
    for number in 0..SESSIONS {
        if cells.push(Cell::Inactive).is_err() {
            return Err(Memory);
        }
    }
    Ok(cells)
}

// Equal sessions.
fn copied_cells(alloc: Global, from: &[Cell]) -> Result<Vec<Cell>, Memory>
    ensures { IfOk result (λ cells. cells.items ≡ from.now) }
{
    let mut cells = Vec::new(alloc);
    for cell in from {
        let copy = cell.copy(alloc)?;
        if cells.push(copy).is_err() {
            return Err(Memory);
        }
    }
    Ok(cells)
}
