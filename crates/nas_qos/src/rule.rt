//! QoS rules.
ghost use Rattle.std.specs.Prelude.{◌≡◌, [], ◌↔◌, IsTrue, IfOk};
ghost use Rattle.nas_qos.specs.Rules.{IsRules};

use crate::Filters;
use nas_base::Memory;
use std::alloc::Global;
use std::marker::Model;

/// A QoS rule: an identifier other than 0, at least one filter, a precedence, and a QFI of 0 to 63 (TS 24.501 clause 9.11.4.13).
#[derive(Drop)]
pub struct Rule {
    pub id: u8,
    pub default: bool,
    pub filters: Filters,
    pub precedence: u8,
    pub qfi: u8,
}

impl Model for Rule {
    ghost use Rattle.std.specs.Prelude.{◌≡◌, true};
    ghost use Rattle.nas_qos.specs.Rules.{QosRule, is_rule};

    ghost Value = { QosRule };

    ghost view = { λ r. record { id = r.id; default = r.default; filters = r.filters; precedence = r.precedence; qfi = r.qfi } };

    ghost invariant = { λ r. is_rule (record { id = r.id; default = r.default; filters = r.filters; precedence = r.precedence; qfi = r.qfi }) ≡ true };
}

/// The QoS rules of a session, in the order of their identifiers: at most 16, with at most 64 filters in all. Where there is any rule
/// exactly one is the default rule; no two have one precedence.
#[derive(Drop)]
pub struct Rules {
    pub items: Vec<Rule>,
}

impl Model for Rules {
    ghost use Rattle.std.specs.Prelude.{List};
    ghost use Rattle.nas_qos.specs.Rules.{IsRules, QosRule};

    ghost Value = { List QosRule };

    ghost view = { λ r. r.items.items };

    ghost invariant = { λ r. IsRules r.items.items };
}

impl Rule {
    /// Whether this is the same rule.
    pub fn equals(&self, other: &Rule) -> bool
        ensures { IsTrue result ↔ (self.now ≡ other.now) }
    {
        self.id == other.id
            && self.default == other.default
            && self.filters.equals(&other.filters)
            && self.precedence == other.precedence
            && self.qfi == other.qfi
    }

    /// An equal rule.
    pub fn copy(&self, alloc: Global) -> Result<Rule, Memory>
        ensures { IfOk result (λ rule. rule ≡ self.now) }
    {
        let filters = self.filters.copy(alloc)?;
        Ok(Rule {
            id: self.id,
            default: self.default,
            filters,
            precedence: self.precedence,
            qfi: self.qfi,
        })
    }
}

impl Rules {
    /// No rule.
    pub fn new(alloc: Global) -> Rules
        ensures { result ≡ [] }
    {
        Rules {
            items: Vec::new(alloc),
        }
    }

    /// Whether these are the same rules.
    pub fn equals(&self, other: &Rules) -> bool
        ensures { IsTrue result ↔ (self.now ≡ other.now) }
    {
        same(self.as_slice(), other.as_slice())
    }

    /// Equal rules.
    pub fn copy(&self, alloc: Global) -> Result<Rules, Memory>
        ensures { IfOk result (λ rules. rules ≡ self.now) }
    {
        let items = copies(alloc, self.as_slice())?;
        Ok(Rules { items })
    }

    /// The rules in order.
    pub fn as_slice(&self) -> &[Rule]
        ensures value { result.now ≡ self.now }
        ensures rules { IsRules result.now }
    {
        self.items.as_slice()
    }
}

// Whether these are the same rules in the same order.
fn same(rules: &[Rule], others: &[Rule]) -> bool
    ensures { IsTrue result ↔ (rules.now ≡ others.now) }
{
    match (rules, others) {
        ([], []) => true,
        ([rule, rest @ ..], [other, more @ ..]) => rule.equals(other) && same(rest, more),
        _ => false,
    }
}

// Copies of the rules.
pub(crate) fn copies(alloc: Global, rules: &[Rule]) -> Result<Vec<Rule>, Memory>
    ensures { IfOk result (λ items. items.items ≡ rules.now) }
{
    let mut items = Vec::new(alloc);
    for rule in rules {
        let copy = rule.copy(alloc)?;
        match items.push(copy) {
            Ok(()) => {}
            Err(_) => return Err(Memory),
        }
    }
    Ok(items)
}
