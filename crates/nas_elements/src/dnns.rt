//! Lists of names of data networks.
ghost use Rattle.std.specs.Prelude.{◌≡◌, IfOk};
ghost use Rattle.std.specs.List.{list_any};
ghost use Rattle.nas_elements.specs.Dnns.{dnns_from, is_same_dnn};

use crate::Dnn;
use nas_base::Memory;
use std::alloc::Global;
use std::marker::Model;

const MOST: usize = 8;

/// 1 to 8 names of data networks, in order (TS 23.003 clause 9.1).
#[derive(Drop)]
pub struct Dnns {
    pub items: Vec<Dnn>,
}

impl Model for Dnns {
    ghost use Rattle.std.specs.Prelude.{ℕ, List, ◌≡◌, true};
    ghost use Rattle.nas_elements.specs.Dnns.{has_dnns_size};

    ghost Value = { List (List ℕ) };

    ghost view = { λ d. d.items.items };

    ghost invariant = { λ d. has_dnns_size d.items.items ≡ true };
}

impl Dnns {
    /// These names, or None exactly where they are none or more than 8.
    pub fn from_items(items: Vec<Dnn>) -> Option<Dnns>
        ensures { result ≡ dnns_from items.items }
    {
        if items.is_empty() || items.len() > MOST {
            return None;
        }
        Some(Dnns { items })
    }

    /// The names in order.
    pub fn as_slice(&self) -> &[Dnn]
        ensures { result.now ≡ self.now }
    {
        self.items.as_slice()
    }

    /// Whether this name is one of them.
    pub fn has(&self, dnn: &Dnn) -> bool
        ensures { result ≡ list_any (is_same_dnn dnn.now) self.now }
    {
        self.as_slice().iter().any(|name| name == dnn)
    }

    /// An equal value, or `Memory`.
    pub fn copy(&self, alloc: Global) -> Result<Dnns, Memory>
        ensures { IfOk result (λ copy. copy ≡ self.now) }
    {
        let _ = &self.items;
        let items = copied(alloc, self.as_slice())?;
        Ok(Dnns { items })
    }
}

// Equal names.
fn copied(alloc: Global, names: &[Dnn]) -> Result<Vec<Dnn>, Memory>
    ensures { IfOk result (λ copies. copies.items ≡ names.now) }
{
    let mut copies = Vec::new(alloc);
    for name in names {
        if copies.push(name.copy()).is_err() {
            return Err(Memory);
        }
    }
    Ok(copies)
}
