//! The calls of milenage:
//!
//!     opc_of K OP
//!     f1 K OPC RAND SQN FIELD
//!     f1_star K OPC RAND SQN FIELD
//!     f2345 K OPC RAND
//!     f5_star K OPC RAND
//!     make_vector K OPC RAND NUMBER FIELD
//!     check_autn K OPC RAND AUTN NUMBER
//!
//! SQN is 6 octets, and NUMBER is a sequence number as a decimal number below 2^48. Of `f2345` the answer is RES, CK, IK and AK,
//! of `make_vector` AUTN before these. That of `check_autn` is `accepted` with the number and these, `mac_failure`,
//! `not_five_g`, or `synch_failure` with AUTS.

use milenage::{AutnAnswer, check_autn, f1, f1_star, f5_star, f2345, make_vector, opc_of};
use probe_words::{Refusal, exactly, literal, number, text, texts, word};
use std::alloc::Global;

/// The answer to a call.
pub fn answer(alloc: Global, words: &[&str]) -> Result<String, Refusal> {
    match words {
        ["opc_of", k, op] => text(alloc, &opc_of(&exactly(k)?, &exactly(op)?)),
        [call, k, opc, rand, rest @ ..] => {
            let keys = Keys {
                k: exactly(k)?,
                opc: exactly(opc)?,
                rand: exactly(rand)?,
            };
            called(alloc, call, &keys, rest)
        }
        _ => Err(Refusal::Unreadable),
    }
}

// K, OPc and RAND of a call.
#[derive(Clone, Copy)]
struct Keys {
    k: [u8; 16],
    opc: [u8; 16],
    rand: [u8; 16],
}

// The answer to a call with these keys.
fn called(alloc: Global, call: &str, keys: &Keys, rest: &[&str]) -> Result<String, Refusal> {
    match rest {
        [] => made_alone(alloc, call, keys),
        [first, second] => made_with(alloc, call, keys, first, second),
        _ => Err(Refusal::Unreadable),
    }
}

fn made_alone(alloc: Global, call: &str, keys: &Keys) -> Result<String, Refusal> {
    match call {
        "f2345" => answer_keys(alloc, keys),
        "f5_star" => text(alloc, &f5_star(&keys.k, &keys.opc, &keys.rand)),
        _ => Err(Refusal::Unreadable),
    }
}

fn made_with(
    alloc: Global,
    call: &str,
    keys: &Keys,
    first: &str,
    second: &str,
) -> Result<String, Refusal> {
    match call {
        "make_vector" => vector(alloc, keys, first, second),
        "check_autn" => checked(alloc, keys, first, second),
        _ => macs(alloc, call, keys, &exactly(first)?, &exactly(second)?),
    }
}

// MAC-A or MAC-S.
fn macs(
    alloc: Global,
    call: &str,
    keys: &Keys,
    sqn: &[u8; 6],
    field: &[u8; 2],
) -> Result<String, Refusal> {
    match call {
        "f1" => text(alloc, &f1(&keys.k, &keys.opc, &keys.rand, sqn, field)),
        "f1_star" => text(alloc, &f1_star(&keys.k, &keys.opc, &keys.rand, sqn, field)),
        _ => Err(Refusal::Unreadable),
    }
}

fn answer_keys(alloc: Global, keys: &Keys) -> Result<String, Refusal> {
    let made = f2345(&keys.k, &keys.opc, &keys.rand);
    texts(alloc, &[&made.res, &made.ck, &made.ik, &made.ak])
}

fn vector(alloc: Global, keys: &Keys, sqn: &str, field: &str) -> Result<String, Refusal> {
    let sqn = number(sqn)?;
    let field = exactly(field)?;
    let made = make_vector(&keys.k, &keys.opc, &keys.rand, sqn, &field);
    texts(
        alloc,
        &[&made.autn, &made.res, &made.ck, &made.ik, &made.ak],
    )
}

fn checked(alloc: Global, keys: &Keys, autn: &str, sqn_ms: &str) -> Result<String, Refusal> {
    let autn = exactly(autn)?;
    let sqn_ms = number(sqn_ms)?;
    let answer = check_autn(&keys.k, &keys.opc, &keys.rand, &autn, sqn_ms);
    told(alloc, &answer)
}

// The answer to AUTN, as words.
fn told(alloc: Global, answer: &AutnAnswer) -> Result<String, Refusal> {
    match answer {
        AutnAnswer::Accepted {
            sqn,
            res,
            ck,
            ik,
            ak,
        } => accepted_text(alloc, *sqn, &[res, ck, ik, ak]),
        AutnAnswer::MacFailure => literal(alloc, "mac_failure"),
        AutnAnswer::NotFiveG => literal(alloc, "not_five_g"),
        AutnAnswer::SynchFailure { auts } => failure_text(alloc, auts),
    }
}

fn accepted_text(alloc: Global, sqn: u64, keys: &[&[u8]]) -> Result<String, Refusal> {
    let keys = texts(alloc, keys)?;
    word(format!(in alloc; "accepted {sqn} {keys}"))
}

fn failure_text(alloc: Global, auts: &[u8]) -> Result<String, Refusal> {
    let auts = text(alloc, auts)?;
    word(format!(in alloc; "synch_failure {auts}"))
}
