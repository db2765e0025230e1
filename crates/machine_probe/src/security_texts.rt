//! Messages and what protects them, as text; handset_calls lists their forms.

use nas_base::{Octets, Supi, Writer};
use nas_elements::Guti;
use nas_security::{Challenge, Context, Pass};
use probe_words::{Refusal, literal, none, push, text, word};
use std::alloc::Global;

/// The text and a comma behind the line.
pub fn add(line: &mut String, text: String) -> Result<(), Refusal> {
    push(line, text.as_str())?;
    push(line, ",")
}

/// A message that is sent.
pub fn sent_text(
    alloc: Global,
    fresh: bool,
    octets: &Octets,
    pass: &Option<Pass>,
) -> Result<String, Refusal> {
    let name = way(fresh);
    let carried = carried_text(alloc, octets, pass)?;
    word(format!(in alloc; "{name}:{carried}"))
}

/// How a message is sent: as the first of its connection, or as any other.
pub fn way(fresh: bool) -> &'static str {
    if fresh { "fresh" } else { "sent" }
}

/// The octets of a message that is sent, and what protects it.
pub fn carried_text(
    alloc: Global,
    octets: &Octets,
    pass: &Option<Pass>,
) -> Result<String, Refusal> {
    let octets = text(alloc, octets.as_slice())?;
    let pass = pass_or_plain(alloc, pass)?;
    word(format!(in alloc; "{octets}:{pass}"))
}

fn pass_or_plain(alloc: Global, pass: &Option<Pass>) -> Result<String, Refusal> {
    match pass {
        Some(pass) => pass_text(alloc, pass),
        None => literal(alloc, "plain"),
    }
}

/// The check that a message passed.
pub fn passed_text(alloc: Global, pass: &Pass) -> Result<String, Refusal> {
    let pass = pass_text(alloc, pass)?;
    word(format!(in alloc; "passed:{pass}"))
}

/// The context that was taken into use.
pub fn took_text(alloc: Global, context: &Context) -> Result<String, Refusal> {
    let context = context_text(alloc, context)?;
    word(format!(in alloc; "took:{context}"))
}

/// A context, if there is one.
pub fn context_or_none(alloc: Global, context: &Option<Context>) -> Result<String, Refusal> {
    match context {
        Some(context) => context_text(alloc, context),
        None => none(alloc),
    }
}

/// A challenge, if there is one.
pub fn challenge_or_none(alloc: Global, challenge: &Option<Challenge>) -> Result<String, Refusal> {
    match challenge {
        Some(challenge) => challenge_text(alloc, challenge),
        None => none(alloc),
    }
}

/// A 5G-GUTI, as the octets of its identity.
pub fn guti_text(alloc: Global, guti: &Guti) -> Result<String, Refusal> {
    let mut out = Writer::new();
    match guti.write(&mut out) {
        Ok(()) => text(alloc, out.octets()),
        Err(_) => Err(Refusal::Unreadable),
    }
}

fn pass_text(alloc: Global, pass: &Pass) -> Result<String, Refusal> {
    let supi = supi_text(alloc, &pass.supi)?;
    let challenge = challenge_text(alloc, &pass.challenge)?;
    let count = pass.count.0;
    word(format!(in alloc; "{supi}.{challenge}.{count}"))
}

fn supi_text(alloc: Global, supi: &Supi) -> Result<String, Refusal> {
    let mut line = String::new(alloc);
    for digit in supi.as_slice() {
        let digit = word(format!(in alloc; "{digit}"))?;
        push(&mut line, digit.as_str())?;
    }
    Ok(line)
}

fn challenge_text(alloc: Global, challenge: &Challenge) -> Result<String, Refusal> {
    let sqn = challenge.sqn;
    let rand = text(alloc, &challenge.rand)?;
    word(format!(in alloc; "{sqn:012x}.{rand}"))
}

fn context_text(alloc: Global, context: &Context) -> Result<String, Refusal> {
    let kamf = kamf_text(alloc, context)?;
    let keys = keys_text(alloc, context)?;
    let (up, down) = (context.up, context.down);
    word(format!(in alloc; "{kamf}.{keys}.{up}.{down}"))
}

// ngKSI, the challenge and KAMF.
fn kamf_text(alloc: Global, context: &Context) -> Result<String, Refusal> {
    let ksi = context.ksi.0;
    let challenge = challenge_text(alloc, &context.challenge)?;
    let kamf = text(alloc, &context.kamf)?;
    word(format!(in alloc; "{ksi}.{challenge}.{kamf}"))
}

// The algorithms and their keys.
fn keys_text(alloc: Global, context: &Context) -> Result<String, Refusal> {
    let (nea, nia) = (context.algs.nea, context.algs.nia);
    let enc = text(alloc, &context.keys.enc)?;
    let int = text(alloc, &context.keys.int)?;
    word(format!(in alloc; "{nea}.{nia}.{enc}.{int}"))
}
