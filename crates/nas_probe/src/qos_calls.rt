//! The calls of nas_qos:
//!
//!     ops OCTETS
//!     apply OCTETS ..
//!
//! The answer to `ops` is the octets that the operations are written as, or `syntax AT`. That to `apply` is the rules behind the
//! lists of operations, which are applied in turn, beginning with no rule: `none`, or for each rule the word `r` with identifier,
//! default bit, precedence and QFI, and then for each filter a word of its direction, its identifier and its components. Where a list
//! is refused it is `syntax AT`, `semantic RULE` or `many COUNT`. Numbers are decimal.

use nas_base::Writer;
use nas_qos::{ApplyRefusal, OpsRefusal, QosFault, RuleOps, Rules, apply, read_ops, write_ops};
use probe_words::{Refusal, octets, rules_text, word, written};
use std::alloc::Global;

/// The answer to a call.
pub fn answer(alloc: Global, words: &[&str]) -> Result<String, Refusal> {
    match words {
        ["ops", input] => rewritten(alloc, input),
        ["apply", lists @ ..] => applied(alloc, lists),
        _ => Err(Refusal::Unreadable),
    }
}

// Operations, read and written again.
fn rewritten(alloc: Global, input: &str) -> Result<String, Refusal> {
    let given = octets(alloc, input)?;
    match read_ops(alloc, &given) {
        Ok(ops) => ops_text(alloc, &ops),
        Err(refusal) => unread(alloc, refusal),
    }
}

fn ops_text(alloc: Global, ops: &RuleOps) -> Result<String, Refusal> {
    let mut out = Writer::new();
    let full = write_ops(ops, &mut out);
    written(alloc, full, &out)
}

// Lists of operations, applied in turn.
fn applied(alloc: Global, lists: &[&str]) -> Result<String, Refusal> {
    let mut rules = Rules::new(alloc);
    for list in lists {
        let given = octets(alloc, list)?;
        let ops = match read_ops(alloc, &given) {
            Ok(ops) => ops,
            Err(refusal) => return unread(alloc, refusal),
        };
        rules = match apply(alloc, &rules, &ops) {
            Ok(new) => new,
            Err(refusal) => return refused(alloc, refusal),
        };
    }
    rules_text(alloc, rules.as_slice(), " ")
}

fn unread(alloc: Global, refusal: OpsRefusal) -> Result<String, Refusal> {
    match refusal {
        OpsRefusal::Syntax { at } => word(format!(in alloc; "syntax {at}")),
        OpsRefusal::Memory => Err(Refusal::Memory),
    }
}

fn refused(alloc: Global, refusal: ApplyRefusal) -> Result<String, Refusal> {
    match refusal {
        ApplyRefusal::Qos(fault) => fault_text(alloc, fault),
        ApplyRefusal::Memory => Err(Refusal::Memory),
    }
}

fn fault_text(alloc: Global, fault: QosFault) -> Result<String, Refusal> {
    match fault {
        QosFault::Semantic { rule } => word(format!(in alloc; "semantic {rule}")),
        QosFault::TooMany { count } => word(format!(in alloc; "many {count}")),
    }
}
