//! The calls of nas_security, under the keys that are derived from KAMF (32 octets) for 128-NIA2 and the ciphering algorithm NEA,
//! which is 0 or 2:
//!
//!     protect KAMF NEA NEXT DIR HEADER PLAIN
//!     unprotect KAMF NEA NEXT DIR OCTETS
//!     time_protect LENGTH TIMES
//!     time_unprotect LENGTH TIMES
//!
//! NEXT is the next count, 0 to 16777216, DIR is `up` or `down`, HEADER 1 to 4. The answer to `protect` is the frame or `spent`; to
//! `unprotect` it is `plain`, `malformed AT`, `spent`, `failed WANT GOT` or `passed COUNT HEADER PLAIN`. The last two do it TIMES
//! times to a message of LENGTH octets (at most 4089) under 128-NEA2, and answer a sum of what came out, for a clock outside.

ghost use Rattle.std.specs.Prelude.{◌≡◌, ◌⊎◌, ◌≤◌, ◌^◌, IfOk};

use crate::frame_times;
use key_chain::nas_keys;
use nas_base::{Dir, Ksi, Writer};
use nas_elements::Algs;
use nas_security::{Challenge, Context, Verdict, protect, unprotect};
use probe_words::{Refusal, direction, exactly, literal, octets, quantity, sum_text, text, word};
use std::alloc::Global;

// The longest message of a frame, and how many counts there are.
const LONGEST: usize = 4089;

const COUNTS: u32 = 0x0100_0000;

/// The answer to a call.
pub fn answer(alloc: Global, words: &[&str]) -> Result<String, Refusal> {
    match words {
        ["protect", kamf, nea, next, dir, header, plain] => {
            let context = context(kamf, nea, next)?;
            protected(alloc, context, direction(dir)?, quantity(header)?, plain)
        }
        ["unprotect", kamf, nea, next, dir, frame] => {
            let context = context(kamf, nea, next)?;
            judged(alloc, &context, direction(dir)?, frame)
        }
        [call, length, times] => timed(alloc, call, quantity(length)?, quantity(times)?),
        _ => Err(Refusal::Unreadable),
    }
}

fn timed(alloc: Global, call: &str, length: u32, times: u32) -> Result<String, Refusal> {
    match call {
        "time_protect" => sum_text(alloc, frame_times::protect_often(length, times)?),
        "time_unprotect" => sum_text(alloc, frame_times::unprotect_often(length, times)?),
        _ => Err(Refusal::Unreadable),
    }
}

// The context of these keys, with the same next count up and down.
fn context(kamf: &str, nea: &str, next: &str) -> Result<Context, Refusal> {
    let kamf = exactly(kamf)?;
    let nea = ciphering(nea)?;
    let next = next_count(next)?;
    Ok(context_of(&kamf, nea, next))
}

fn ciphering(word: &str) -> Result<u8, Refusal>
    ensures { IfOk result (λ nea. (nea ≡ 0) ⊎ (nea ≡ 2)) }
{
    match word {
        "0" => Ok(0),
        "2" => Ok(2),
        _ => Err(Refusal::Unreadable),
    }
}

fn next_count(word: &str) -> Result<u32, Refusal>
    ensures { IfOk result (λ next. next ≤ 2 ^ 24) }
{
    let next = quantity(word)?;
    if next > COUNTS {
        return Err(Refusal::Unreadable);
    }
    Ok(next)
}

/// The context of this KAMF and ciphering algorithm, with the same next count up and down.
pub fn context_of(kamf: &[u8; 32], nea: u8, next: u32) -> Context
    requires algorithm { (nea ≡ 0) ⊎ (nea ≡ 2) }
    requires count { next ≤ 2 ^ 24 }
{
    Context {
        challenge: Challenge {
            sqn: 0,
            rand: [0; 16],
        },
        ksi: Ksi(0),
        kamf: *kamf,
        algs: Algs { nea, nia: 2 },
        keys: nas_keys(kamf, nea, 2),
        up: next,
        down: next,
    }
}

fn protected(
    alloc: Global,
    mut context: Context,
    dir: Dir,
    header: u32,
    plain: &str,
) -> Result<String, Refusal> {
    let plain = octets(alloc, plain)?;
    if header < 1 || header > 4 || plain.len() > LONGEST {
        return Err(Refusal::Unreadable);
    }
    let mut out = Writer::new();
    match protect(&mut context, dir, header as u8, &plain, &mut out) {
        Ok(_) => text(alloc, out.octets()),
        Err(_) => literal(alloc, "spent"),
    }
}

fn judged(alloc: Global, context: &Context, dir: Dir, frame: &str) -> Result<String, Refusal> {
    let frame = octets(alloc, frame)?;
    let mut out = Writer::new();
    let verdict = unprotect(context, dir, &frame, &mut out);
    verdict_text(alloc, &verdict, out.octets())
}

fn verdict_text(alloc: Global, verdict: &Verdict, plain: &[u8]) -> Result<String, Refusal> {
    match verdict {
        Verdict::Plain => literal(alloc, "plain"),
        Verdict::Malformed { at } => word(format!(in alloc; "malformed {at}")),
        Verdict::Spent { next: _ } => literal(alloc, "spent"),
        Verdict::Failed { want, got } => failed_text(alloc, want, got),
        Verdict::Passed { count, header } => passed_text(alloc, count.0, *header, plain),
    }
}

fn failed_text(alloc: Global, want: &[u8], got: &[u8]) -> Result<String, Refusal> {
    let want = text(alloc, want)?;
    let got = text(alloc, got)?;
    word(format!(in alloc; "failed {want} {got}"))
}

fn passed_text(alloc: Global, count: u32, header: u8, plain: &[u8]) -> Result<String, Refusal> {
    let plain = text(alloc, plain)?;
    word(format!(in alloc; "passed {count} {header} {plain}"))
}
