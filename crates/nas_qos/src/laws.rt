//! What holds of every value. These functions do nothing: their contracts are the laws.
ghost use Rattle.std.specs.Prelude.{◌≡◌, Ok};
ghost use Rattle.nas_qos.specs.Applying.{all_applied, applied};
ghost use Rattle.nas_qos.specs.Laws.{OthersStay, UnnamedStay};
ghost use Rattle.nas_qos.specs.Operations.{ops_in, ops_octets};

use crate::{RuleOp, RuleOps, Rules};

/// Operations that are written are read back. So no two lists of operations are written as the same octets.
pub fn ops_are_read_back(ops: &RuleOps)
    ensures { ops_in (ops_octets ops.now) ≡ Ok ops.now }
{
    let _items = &ops.items;
}

/// An operation changes no rule but its own.
pub fn other_rules_stay(rules: &Rules, op: &RuleOp)
    ensures { OthersStay op.now rules.now (applied op.now rules.now) }
{}

/// Operations change no rule that none of them names.
pub fn unnamed_rules_stay(rules: &Rules, ops: &RuleOps)
    ensures { UnnamedStay ops.now rules.now (all_applied ops.now rules.now) }
{}
