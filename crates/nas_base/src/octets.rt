//! Lists of octets that own their memory, each with a limit.
ghost use Rattle.nas_base.specs.Octets.{Copies};

use std::alloc::Global;
use std::marker::Model;

const OCTETS_LIMIT: usize = 4100;

/// At most 4,100 octets: a NAS message, or a part of one.
#[derive(Drop)]
pub struct Octets {
    pub items: Vec<u8>,
}

impl Model for Octets {
    ghost use Rattle.std.specs.Prelude.{ℕ, List, ◌≤◌, length};

    ghost Value = { List ℕ };

    ghost view = { λ o. o.items.items };

    ghost invariant = { λ o. length o.items.items ≤ 4100 };
}

/// At most 1,048,576 octets: a file, or a line of one.
#[derive(Drop)]
pub struct Octets1M {
    pub items: Vec<u8>,
}

impl Model for Octets1M {
    ghost use Rattle.std.specs.Prelude.{ℕ, List, ◌≤◌, length};

    ghost Value = { List ℕ };

    ghost view = { λ o. o.items.items };

    ghost invariant = { λ o. length o.items.items ≤ 1048576 };
}

/// Why octets were not copied.
#[derive(Clone, Copy, Debug, PartialEq, Eq)]
pub enum OctetsRefusal {
    /// There are more than the limit; `size` of them.
    TooMany { size: usize },
    /// There was no memory left.
    Memory,
}

impl Octets {
    ghost use Rattle.std.specs.Prelude.{◌≡◌, ◌≤◌, length};

    /// A copy of the octets.
    ///
    /// # Errors
    ///
    /// `TooMany` where there are more than 4,100, and only there; otherwise `Memory` may come.
    pub fn copy(alloc: Global, from: &[u8]) -> Result<Octets, OctetsRefusal>
        ensures { Copies 4100 from.now result }
    {
        if from.len() > OCTETS_LIMIT {
            return Err(OctetsRefusal::TooMany { size: from.len() });
        }
        match from.to_vec(alloc) {
            Ok(items) => Ok(Octets { items }),
            Err(_) => Err(OctetsRefusal::Memory),
        }
    }

    /// The octets as they lie there.
    pub fn as_slice(&self) -> &[u8]
        ensures value { result.now ≡ self.now }
        ensures limit { length result.now ≤ 4100 }
    {
        self.items.as_slice()
    }
}

impl Octets1M {
    ghost use Rattle.std.specs.Prelude.{◌≡◌, ◌≤◌, length};

    /// The octets as they lie there.
    pub fn as_slice(&self) -> &[u8]
        ensures value { result.now ≡ self.now }
        ensures limit { length result.now ≤ 1048576 }
    {
        self.items.as_slice()
    }
}
