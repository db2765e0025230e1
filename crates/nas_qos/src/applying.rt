//! What operations do to the rules of a session.
ghost use Rattle.std.specs.Prelude.{◌≡◌, ◌≤◌, ◌<◌, ◌^◌, ◌&&◌, length, false, not, nat_eq, Some, IfOk, OnOk};
ghost use Rattle.std.specs.List.{list_all, list_any};
ghost use Rattle.std.specs.Option.{option_copied};
ghost use Rattle.nas_qos.specs.Filters.{names};
ghost use Rattle.nas_qos.specs.Places.{lower, place};
ghost use Rattle.nas_qos.specs.Applying.{adds_there, all_applied, changed, changed_filters, changed_rule, created, creates_there, deletes_default, deletes_missing, first_not_default, found, is_taken, is_wrong, leaves_none, new_rule, precedence_in, qfi_in, remaining, second_default, sets_default, takes_precedence, wrong_change, wrong_create};
ghost use Rattle.nas_qos.specs.Reads.{Applies, Changes, KeepsLimits};
ghost use Rattle.nas_qos.specs.Rules.{IsRules, filters_of};

use crate::filter::{DELETE_FILTERS, joined, names, remaining};
use crate::rule::copies;
use crate::{ApplyRefusal, Filter, Filters, QosFault, Rule, RuleOp, RuleOps, Rules};
use nas_base::Memory;
use std::alloc::Global;

const CREATE: u8 = 1;

const DELETE: u8 = 2;

const ADD_FILTERS: u8 = 3;

const REPLACE_FILTERS: u8 = 4;

const MOST_RULES: usize = 16;

const MOST_FILTERS: usize = 64;

/// The rules behind the operations, which are carried out one after the other.
///
/// # Errors
///
/// `Qos` exactly where an operation can't be carried out, by the first such: `Semantic` where it doesn't go with the rules as they
/// are then, else `TooMany` where more than 16 rules or more than 64 filters would be there; or `Memory`.
pub fn apply(alloc: Global, rules: &Rules, ops: &RuleOps) -> Result<Rules, ApplyRefusal>
    ensures { Applies result (all_applied ops.now rules.now) }
{
    let mut items = match copies(alloc, rules.as_slice()) {
        Ok(items) => items,
        Err(Memory) => return Err(ApplyRefusal::Memory),
    };
    for op in ops.as_slice() {
        apply_one(alloc, &mut items, op)?;
    }
    Ok(Rules { items })
}

// Carries out one operation. After a refusal the rules are of no use.
fn apply_one(alloc: Global, rules: &mut Vec<Rule>, op: &RuleOp) -> Result<(), ApplyRefusal>
    requires { IsRules rules.old.items }
    ensures done { Changes result rules.old.items rules.new.items op.now }
    ensures kept { OnOk result (IsRules rules.new.items) }
{
    let id = op.id;
    if is_wrong(op, rules.as_slice()) {
        return Err(ApplyRefusal::Qos(QosFault::Semantic { rule: id }));
    }
    match change(alloc, rules, op) {
        Ok(()) => {}
        Err(Memory) => return Err(ApplyRefusal::Memory),
    }
    check_limits(rules.as_slice())
}

// Whether there are at most 16 rules, and at most 64 filters in all.
fn check_limits(rules: &[Rule]) -> Result<(), ApplyRefusal>
    requires rules { length rules.now ≤ 17 }
    requires filters { filters_of rules.now ≤ 79 }
    ensures { KeepsLimits result rules.now }
{
    let count = rules.len();
    if count > MOST_RULES {
        return Err(ApplyRefusal::Qos(QosFault::TooMany {
            count: count as u16,
        }));
    }
    let filters = filters_of(rules);
    if filters > MOST_FILTERS {
        return Err(ApplyRefusal::Qos(QosFault::TooMany {
            count: filters as u16,
        }));
    }
    Ok(())
}

// How many filters the rules have in all.
fn filters_of(rules: &[Rule]) -> usize
    requires { filters_of rules.now < 2 ^ 64 }
    ensures { result ≡ filters_of rules.now }
{
    match rules {
        [] => 0,
        [rule, rest @ ..] => rule.filters.as_slice().len() + filters_of(rest),
    }
}

// Whether the operation doesn't go with the rules.
fn is_wrong(op: &RuleOp, rules: &[Rule]) -> bool
    ensures { result ≡ is_wrong op.now rules.now }
{
    if op.code == CREATE {
        return wrong_create(op, rules);
    }
    match found(op.id, rules) {
        Some(old) => wrong_change(op, rules, old),
        None => true,
    }
}

// The rule of this identifier.
fn found(id: u8, rules: &[Rule]) -> Option<&Rule>
    ensures { option_copied result ≡ found id rules.now }
{
    match rules {
        [] => None,
        [rule, ..] if rule.id == id => Some(rule),
        [_, rest @ ..] => found(id, rest),
    }
}

// Whether the rule can't be created.
fn wrong_create(op: &RuleOp, rules: &[Rule]) -> bool
    ensures { result ≡ wrong_create op.now rules.now }
{
    creates_there(op, rules)
        || second_default(op, rules)
        || first_not_default(op, rules)
        || is_taken(op.id, op.tail, rules)
}

fn creates_there(op: &RuleOp, rules: &[Rule]) -> bool
    ensures { result ≡ creates_there op.now rules.now }
{
    let id = op.id;
    rules.iter().any(|rule| rule.id == id)
}

fn second_default(op: &RuleOp, rules: &[Rule]) -> bool
    ensures { result ≡ second_default op.now rules.now }
{
    op.default && has_default(rules)
}

fn has_default(rules: &[Rule]) -> bool
    ensures { result ≡ list_any (λ r. r.default) rules.now }
{
    rules.iter().any(|rule| rule.default)
}

fn first_not_default(op: &RuleOp, rules: &[Rule]) -> bool
    ensures { result ≡ first_not_default op.now rules.now }
{
    rules.is_empty() && !op.default
}

// Whether a rule of another identifier has the precedence of the tail.
fn is_taken(id: u8, tail: Option<(u8, u8)>, rules: &[Rule]) -> bool
    ensures { result ≡ is_taken id tail rules.now }
{
    match tail {
        None => false,
        Some((precedence, _)) => others_have(id, precedence, rules),
    }
}

// Whether a rule of another identifier has the precedence.
fn others_have(id: u8, precedence: u8, rules: &[Rule]) -> bool
    ensures { result ≡ list_any (λ r. not (nat_eq r.id id) && nat_eq r.precedence precedence) rules.now }
{
    rules.iter().any(|rule| is_other(id, precedence, rule))
}

fn is_other(id: u8, precedence: u8, rule: &Rule) -> bool
    ensures { result ≡ (not (nat_eq rule.now.id id) && nat_eq rule.now.precedence precedence) }
{
    rule.id != id && rule.precedence == precedence
}

// Whether a rule that is there can't be changed so.
fn wrong_change(op: &RuleOp, rules: &[Rule], old: &Rule) -> bool
    ensures { result ≡ wrong_change op.now rules.now (Some old.now) }
{
    deletes_default(op, old)
        || sets_default(op, old)
        || adds_there(op, &old.filters)
        || deletes_missing(op, &old.filters)
        || leaves_none(op, &old.filters)
        || takes_precedence(op, rules)
}

fn deletes_default(op: &RuleOp, old: &Rule) -> bool
    ensures { result ≡ deletes_default op.now old.now }
{
    op.code == DELETE && old.default
}

fn sets_default(op: &RuleOp, old: &Rule) -> bool
    ensures { result ≡ sets_default op.now old.now }
{
    op.default && !old.default
}

fn adds_there(op: &RuleOp, filters: &Filters) -> bool
    ensures { result ≡ adds_there op.now filters.now }
{
    op.code == ADD_FILTERS && names_one(op.filters.as_slice(), filters.as_slice())
}

// Whether one of the filters is there.
fn names_one(filters: &[Filter], there: &[Filter]) -> bool
    ensures { result ≡ list_any (λ f. names f.id there.now) filters.now }
{
    filters.iter().any(|filter| names(filter.id, there))
}

fn deletes_missing(op: &RuleOp, filters: &Filters) -> bool
    ensures { result ≡ deletes_missing op.now filters.now }
{
    op.code == DELETE_FILTERS && misses_one(op.filters.as_slice(), filters.as_slice())
}

// Whether one of the filters isn't there.
fn misses_one(filters: &[Filter], there: &[Filter]) -> bool
    ensures { result ≡ list_any (λ f. not (names f.id there.now)) filters.now }
{
    filters.iter().any(|filter| !names(filter.id, there))
}

#[tactic(auto, using(crate::proofs::FilterLists::none_left))]
fn leaves_none(op: &RuleOp, filters: &Filters) -> bool
    ensures { result ≡ leaves_none op.now filters.now }
{
    op.code == DELETE_FILTERS && all_named(filters.as_slice(), op.filters.as_slice())
}

// Whether each of the filters is named.
fn all_named(filters: &[Filter], gone: &[Filter]) -> bool
    ensures { result ≡ list_all (λ f. names f.id gone.now) filters.now }
{
    filters.iter().all(|filter| names(filter.id, gone))
}

fn takes_precedence(op: &RuleOp, rules: &[Rule]) -> bool
    ensures { result ≡ takes_precedence op.now rules.now }
{
    op.code != DELETE && is_taken(op.id, op.tail, rules)
}

// Changes the rules as an operation that goes with them says. After want of memory they are of no use.
fn change(alloc: Global, rules: &mut Vec<Rule>, op: &RuleOp) -> Result<(), Memory>
    requires { is_wrong op.now rules.old.items ≡ false }
    ensures { OnOk result (rules.new.items ≡ changed op.now rules.old.items) }
{
    if op.code == CREATE {
        return create(alloc, rules, op);
    }
    let at = place(op.id, rules.as_slice());
    if at == rules.len() {
        return Ok(());
    }
    if op.code == DELETE {
        rules.remove(at);
        return Ok(());
    }
    let rule = changed_rule(alloc, op, &rules[at])?;
    rules[at] = rule;
    Ok(())
}

// One more rule, in the order of identifiers.
fn create(alloc: Global, rules: &mut Vec<Rule>, op: &RuleOp) -> Result<(), Memory>
    requires { op.now.code ≡ 1 }
    ensures { OnOk result (rules.new.items ≡ created (new_rule op.now) rules.old.items) }
{
    let rule = new_rule(alloc, op)?;
    let at = lower(op.id, rules.as_slice());
    match rules.insert(at, rule) {
        Ok(()) => {}
        Err(_) => return Err(Memory),
    }
    Ok(())
}

// How many rules at the front have a lower identifier.
fn lower(id: u8, rules: &[Rule]) -> usize
    ensures value { result ≡ lower id rules.now }
    ensures limit { result ≤ length rules.now }
{
    match rules {
        [rule, rest @ ..] if rule.id < id => 1 + lower(id, rest),
        _ => 0,
    }
}

// The place of the rule of this identifier, or the number of rules where there is none.
fn place(id: u8, rules: &[Rule]) -> usize
    ensures value { result ≡ place id rules.now }
    ensures limit { result ≤ length rules.now }
{
    match rules {
        [rule, rest @ ..] if rule.id != id => 1 + place(id, rest),
        _ => 0,
    }
}

// The rule that an operation creates.
fn new_rule(alloc: Global, op: &RuleOp) -> Result<Rule, Memory>
    requires { op.now.code ≡ 1 }
    ensures { IfOk result (λ rule. rule ≡ new_rule op.now) }
{
    let filters = op.filters.copy(alloc)?;
    Ok(Rule {
        id: op.id,
        default: op.default,
        filters,
        precedence: precedence_in(op.tail, 0),
        qfi: qfi_in(op.tail, 0),
    })
}

// The rule that an operation makes of one that is there.
fn changed_rule(alloc: Global, op: &RuleOp, old: &Rule) -> Result<Rule, Memory>
    requires joins { adds_there op.now old.now.filters ≡ false }
    requires leaves { leaves_none op.now old.now.filters ≡ false }
    ensures { IfOk result (λ rule. rule ≡ changed_rule op.now old.now) }
{
    let filters = changed_filters(alloc, op, &old.filters)?;
    Ok(Rule {
        id: old.id,
        default: old.default,
        filters,
        precedence: precedence_in(op.tail, old.precedence),
        qfi: qfi_in(op.tail, old.qfi),
    })
}

// The precedence that a tail sets, or what was there.
fn precedence_in(tail: Option<(u8, u8)>, old: u8) -> u8
    ensures { result ≡ precedence_in tail old }
{
    match tail {
        None => old,
        Some((precedence, _)) => precedence,
    }
}

// The QFI that a tail sets, or what was there.
fn qfi_in(tail: Option<(u8, u8)>, old: u8) -> u8
    ensures { result ≡ qfi_in tail old }
{
    match tail {
        None => old,
        Some((_, qfi)) => qfi,
    }
}

// The filters that an operation makes of those that are there.
fn changed_filters(alloc: Global, op: &RuleOp, filters: &Filters) -> Result<Filters, Memory>
    requires { adds_there op.now filters.now ≡ false }
    ensures { IfOk result (λ new. new ≡ changed_filters op.now filters.now) }
{
    match op.code {
        ADD_FILTERS => joined(alloc, filters, &op.filters),
        REPLACE_FILTERS => op.filters.copy(alloc),
        DELETE_FILTERS => remaining(alloc, op.filters.as_slice(), filters),
        _ => filters.copy(alloc),
    }
}
