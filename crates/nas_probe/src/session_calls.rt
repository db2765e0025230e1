//! The call `sessions`, which message_calls lists.

use nas_qos::{ApplyRefusal, OpsRefusal, RuleOps, Rules, apply, read_ops};
use probe_words::{Refusal, literal, octets};
use sm_messages::{PduSessionEstablishmentAccept, Session, Sm, SmFrame, SmRefusal, decode_sm};
use std::alloc::Global;

/// Whether a copy of one session equals another.
pub fn compared(alloc: Global, first: &str, second: &str) -> Result<String, Refusal> {
    let copy = established(alloc, first)?.copy(alloc)?;
    let other = established(alloc, second)?;
    match copy.equals(&other) {
        true => literal(alloc, "equal"),
        false => literal(alloc, "differ"),
    }
}

// The session that a PDU SESSION ESTABLISHMENT ACCEPT brings.
fn established(alloc: Global, input: &str) -> Result<Session, Refusal> {
    let accept = acceptance(alloc, input)?;
    let rules = applied(alloc, &read(alloc, accept.rules.as_slice())?)?;
    Ok(Session {
        kind: accept.session_type.0,
        address: accept.address,
        dnn: accept.dnn,
        slice: accept.slice,
        ambr: accept.ambr,
        rules,
    })
}

fn acceptance(alloc: Global, input: &str) -> Result<PduSessionEstablishmentAccept, Refusal> {
    let given = octets(alloc, input)?;
    match decode_sm(alloc, &given) {
        Ok(frame) => accepted(frame),
        Err(SmRefusal::Memory) => Err(Refusal::Memory),
        Err(_) => Err(Refusal::Unreadable),
    }
}

fn accepted(frame: SmFrame) -> Result<PduSessionEstablishmentAccept, Refusal> {
    match frame.body {
        Sm::PduSessionEstablishmentAccept(accept) => Ok(accept),
        _ => Err(Refusal::Unreadable),
    }
}

fn read(alloc: Global, given: &[u8]) -> Result<RuleOps, Refusal> {
    match read_ops(alloc, given) {
        Ok(ops) => Ok(ops),
        Err(OpsRefusal::Syntax { at: _ }) => Err(Refusal::Unreadable),
        Err(OpsRefusal::Memory) => Err(Refusal::Memory),
    }
}

// The rules that operations make where there is none.
fn applied(alloc: Global, ops: &RuleOps) -> Result<Rules, Refusal> {
    match apply(alloc, &Rules::new(alloc), ops) {
        Ok(rules) => Ok(rules),
        Err(ApplyRefusal::Qos(_)) => Err(Refusal::Unreadable),
        Err(ApplyRefusal::Memory) => Err(Refusal::Memory),
    }
}
