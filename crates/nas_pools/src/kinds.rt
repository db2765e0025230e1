//! Which addresses data networks have.
ghost use Rattle.std.specs.Prelude.{◌≡◌, IfOk};
ghost use Rattle.std.specs.Str.{bytes_eq};
ghost use Rattle.nas_pools.specs.Kinds.{are_distinct, is_listed, kinds_from, kinds_of, kinds_unlisted};

use nas_base::Memory;
use nas_elements::Dnn;
use std::alloc::Global;
use std::marker::Model;

const MOST: usize = 64;

/// Which addresses a data network has: IPv4 alone (1), IPv6 alone (2), or both (3) (TS 24.501 clause 9.11.4.11).
#[derive(Drop)]
pub struct DnnKind {
    pub dnn: Dnn,
    pub kinds: u8,
}

impl Model for DnnKind {
    ghost use Rattle.std.specs.Prelude.{◌≡◌, true};
    ghost use Rattle.nas_pools.specs.Kinds.{DnnKindParts, is_kind};

    ghost Value = { DnnKindParts };

    ghost view = { λ k. record { dnn = k.dnn; kinds = k.kinds } };

    ghost invariant = { λ k. is_kind k.kinds ≡ true };
}

impl DnnKind {
    /// An equal value.
    pub fn copy(&self) -> DnnKind
        ensures { result ≡ self.now }
    {
        DnnKind {
            dnn: self.dnn.copy(),
            kinds: self.kinds,
        }
    }

    // Whether it is of this data network.
    fn is_of(&self, dnn: &Dnn) -> bool
        ensures { result ≡ bytes_eq self.now.dnn dnn.now }
    {
        self.dnn == *dnn
    }
}

/// The kinds of up to 64 data networks, none of which stands twice. One that isn't listed has both where there are interface
/// identifiers of IPv6, else IPv4 alone.
#[derive(Drop)]
pub struct DnnKinds {
    pub items: Vec<DnnKind>,
}

impl Model for DnnKinds {
    ghost use Rattle.std.specs.Prelude.{◌≡◌, true, List};
    ghost use Rattle.nas_pools.specs.Kinds.{DnnKindParts, are_kinds};

    ghost Value = { List DnnKindParts };

    ghost view = { λ k. k.items.items };

    ghost invariant = { λ k. are_kinds k.items.items ≡ true };
}

impl DnnKinds {
    /// These kinds, or None exactly where they are more than 64 or a data network stands twice.
    pub fn from_items(items: Vec<DnnKind>) -> Option<DnnKinds>
        ensures { result ≡ kinds_from items.items }
    {
        if items.len() > MOST || !are_distinct(items.as_slice()) {
            return None;
        }
        Some(DnnKinds { items })
    }

    /// The kinds in order.
    pub fn as_slice(&self) -> &[DnnKind]
        ensures { result.now ≡ self.now }
    {
        self.items.as_slice()
    }

    /// The kinds of a data network: 1, 2 or 3. `has_v6` says whether there are interface identifiers of IPv6.
    pub fn of(&self, dnn: &Dnn, has_v6: bool) -> u8
        ensures { result ≡ kinds_of dnn.now has_v6 self.now }
    {
        for kind in self.as_slice() {
            if kind.is_of(dnn) {
                return kind.kinds;
            }
        }
        if has_v6 { 3 } else { 1 }
    }

    /// An equal value, or `Memory`.
    pub fn copy(&self, alloc: Global) -> Result<DnnKinds, Memory>
        ensures { IfOk result (λ copy. copy ≡ self.now) }
    {
        let items = copies(alloc, self.items.as_slice())?;
        Ok(DnnKinds { items })
    }
}

// These kinds once more.
fn copies(alloc: Global, kinds: &[DnnKind]) -> Result<Vec<DnnKind>, Memory>
    ensures { IfOk result (λ copies. copies.items ≡ kinds.now) }
{
    let mut copies = Vec::new(alloc);
    for kind in kinds {
        if copies.push(kind.copy()).is_err() {
            return Err(Memory);
        }
    }
    Ok(copies)
}

// Whether a data network is one of these.
fn is_listed(dnn: &Dnn, kinds: &[DnnKind]) -> bool
    ensures { result ≡ is_listed dnn.now kinds.now }
{
    for kind in kinds {
        if kind.is_of(dnn) {
            return true;
        }
    }
    false
}

// Whether none of the data networks stands twice.
fn are_distinct(kinds: &[DnnKind]) -> bool
    ensures { result ≡ are_distinct kinds.now }
{
    for (place, kind) in kinds.iter().enumerate() {
        if is_listed(&kind.dnn, &kinds[place + 1..]) {
            return false;
        }
    }
    true
}
