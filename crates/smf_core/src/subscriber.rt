//! What the SMF keeps of a subscriber.
ghost use Rattle.std.specs.Prelude.{◌≡◌, ◌-◌, length, replicate, slice_index_or, slice_set, IfOk};
ghost use Rattle.smf_core.specs.State.{unused, vacant};

use crate::cell::Cell;
use crate::config::SmfSubscriber;
use nas_base::{Memory, Psi, Supi};
use nas_elements::{Dnns, Nssai};
use std::alloc::Global;
use std::marker::Model;

const SESSIONS: usize = 15;

/// A cell for each of the PDU session identities 1 to 15, in their order.
#[derive(Drop)]
pub struct Cells {
    items: Vec<Cell>,
}

impl Model for Cells {
    ghost use Rattle.std.specs.Prelude.{◌≡◌, List, length};
    ghost use Rattle.smf_core.specs.declared.cell.Cell.{Cell};

    ghost Value = { List Cell };

    ghost view = { λ c. c.items.items };

    ghost invariant = { λ c. length c.items.items ≡ 15 };
}

/// A subscriber: the SUPI, the data networks and slices that are subscribed, and what is kept of its sessions.
#[derive(Drop)]
pub struct Subscriber {
    pub supi: Supi,
    pub dnns: Dnns,
    pub slices: Nssai,
    pub cells: Cells,
}

impl Cells {
    /// No session, and no answer kept.
    ///
    /// # Errors
    ///
    /// `Memory`.
    pub fn vacant(alloc: Global) -> Result<Cells, Memory>
        ensures { IfOk result (λ cells. cells ≡ replicate 15 vacant) }
    {
        let mut items = Vec::new(alloc);
        for place in 0..SESSIONS {
            let _place = place;
            if items.push(Cell::vacant()).is_err() {
                return Err(Memory);
            }
        }
        Ok(Cells { items })
    }

    /// Says that there are 15.
    pub fn whole(&self)
        ensures { length self.now ≡ 15 }
    {
        let _items = &self.items;
    }

    /// The cell of an identity.
    pub fn at(&self, psi: Psi) -> &Cell
        ensures { result.now ≡ slice_index_or self.now (psi - 1) vacant }
    {
        &self.items[usize::from(psi.0) - 1]
    }

    /// Another cell takes its place.
    pub fn put(&mut self, psi: Psi, cell: Cell)
        ensures { self.new ≡ slice_set self.old (psi - 1) cell }
    {
        self.items[usize::from(psi.0) - 1] = cell;
    }

    /// Equal cells, or `Memory`.
    pub fn copy(&self, alloc: Global) -> Result<Cells, Memory>
        ensures { IfOk result (λ copy. copy ≡ self.now) }
    {
        let mut items = Vec::new(alloc);
        for cell in self.items.as_slice() {
            let copy = cell.copy(alloc)?;
            if items.push(copy).is_err() {
                return Err(Memory);
            }
        }
        Ok(Cells { items })
    }
}

impl Subscriber {
    /// One of whom nothing came yet, or `Memory`.
    pub fn unused(alloc: Global, configured: &SmfSubscriber) -> Result<Subscriber, Memory>
        ensures { IfOk result (λ subscriber. subscriber ≡ unused configured.now) }
    {
        Ok(Subscriber {
            supi: configured.supi.copy(),
            dnns: configured.dnns.copy(alloc)?,
            slices: configured.slices.copy(),
            cells: Cells::vacant(alloc)?,
        })
    }

    /// Another cell takes the place of an identity's.
    pub fn put(&mut self, psi: Psi, cell: Cell)
        ensures { self.new ≡ record self.old { cells = slice_set self.old.cells (psi - 1) cell } }
    {
        self.cells.put(psi, cell);
    }

    /// An equal value, or `Memory`.
    pub fn copy(&self, alloc: Global) -> Result<Subscriber, Memory>
        ensures { IfOk result (λ copy. copy ≡ self.now) }
    {
        Ok(Subscriber {
            supi: self.supi.copy(),
            dnns: self.dnns.copy(alloc)?,
            slices: self.slices.copy(),
            cells: self.cells.copy(alloc)?,
        })
    }
}
