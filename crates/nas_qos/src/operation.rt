//! Operations on QoS rules.
ghost use Rattle.std.specs.Prelude.{◌≡◌, true, ◌↔◌, IsTrue, IfOk};
ghost use Rattle.nas_qos.specs.Operations.{is_ops};

use crate::Filters;
use crate::writing::{ops_octets, same_octets};
use nas_base::Memory;
use std::alloc::Global;
use std::marker::Model;

/// An operation on the rule of an identifier other than 0 (TS 24.501 clause 9.11.4.13). The code is 1 to create the rule, 2 to delete
/// it, 3 to add filters, 4 to replace them, 5 to delete some, 6 to change it without filters. The tail is a precedence and a QFI of 0
/// to 63; create has one.
#[derive(Drop)]
pub struct RuleOp {
    pub id: u8,
    pub code: u8,
    pub default: bool,
    pub filters: Filters,
    pub tail: Option<(u8, u8)>,
}

impl Model for RuleOp {
    ghost use Rattle.std.specs.Prelude.{◌≡◌, true};
    ghost use Rattle.nas_qos.specs.Operations.{Operation, is_operation};

    ghost Value = { Operation };

    ghost view = { λ o. record { id = o.id; code = o.code; default = o.default; filters = o.filters; tail = o.tail } };

    ghost invariant = { λ o. is_operation (record { id = o.id; code = o.code; default = o.default; filters = o.filters; tail = o.tail }) ≡ true };
}

/// Operations in order, which are written as at most 2,048 octets.
#[derive(Drop)]
pub struct RuleOps {
    pub items: Vec<RuleOp>,
}

impl Model for RuleOps {
    ghost use Rattle.std.specs.Prelude.{List, ◌≡◌, true};
    ghost use Rattle.nas_qos.specs.Operations.{Operation, is_ops};

    ghost Value = { List Operation };

    ghost view = { λ o. o.items.items };

    ghost invariant = { λ o. is_ops o.items.items ≡ true };
}

impl RuleOp {
    /// An equal operation.
    pub fn copy(&self, alloc: Global) -> Result<RuleOp, Memory>
        ensures { IfOk result (λ op. op ≡ self.now) }
    {
        let filters = self.filters.copy(alloc)?;
        Ok(RuleOp {
            id: self.id,
            code: self.code,
            default: self.default,
            filters,
            tail: self.tail,
        })
    }
}

impl RuleOps {
    /// Whether these are the same operations in the same order.
    pub fn equals(&self, other: &RuleOps) -> bool
        ensures { IsTrue result ↔ (self.now ≡ other.now) }
    {
        let _items = &self.items;
        let _others = &other.items;
        same_octets(ops_octets(self).as_slice(), ops_octets(other).as_slice())
    }

    /// Equal operations.
    pub fn copy(&self, alloc: Global) -> Result<RuleOps, Memory>
        ensures { IfOk result (λ ops. ops ≡ self.now) }
    {
        let mut items = Vec::new(alloc);
        for op in self.as_slice() {
            let copy = op.copy(alloc)?;
            match items.push(copy) {
                Ok(()) => {}
                Err(_) => return Err(Memory),
            }
        }
        Ok(RuleOps { items })
    }

    /// The operations in order.
    pub fn as_slice(&self) -> &[RuleOp]
        ensures value { result.now ≡ self.now }
        ensures ops { is_ops result.now ≡ true }
    {
        self.items.as_slice()
    }
}
