//! The calls of key_chain:
//!
//!     hmac256 KEY OCTETS
//!     kdf1 KEY FC P0
//!     kdf2 KEY FC P0 P1
//!     kdf3 KEY FC P0 P1 P2
//!     snn PLMN
//!     res_star CK IK PLMN RAND RES
//!     kausf CK IK PLMN HIDDEN
//!     kseaf KAUSF PLMN
//!     kamf KSEAF IMSI ABBA
//!
//! PLMN is 5 or 6 digits and IMSI is 15. All else is octets: FC is one, a parameter and ABBA have at most 65,535.

use key_chain::{hmac256, kamf, kausf, kdf1, kdf2, kdf3, kseaf, res_star, snn};
use probe_words::{Refusal, exactly, network, octet, octets, parameter, subscriber, text};
use std::alloc::Global;

/// The answer to a call.
pub fn answer(alloc: Global, words: &[&str]) -> Result<String, Refusal> {
    match words {
        ["hmac256", key, input] => hashed(alloc, key, input),
        [call, rest @ ..] => match chain_answer(alloc, call, rest) {
            Err(Refusal::Unreadable) => derivation(alloc, call, rest),
            answer => answer,
        },
        [] => Err(Refusal::Unreadable),
    }
}

fn hashed(alloc: Global, key: &str, input: &str) -> Result<String, Refusal> {
    let key = octets(alloc, key)?;
    let input = octets(alloc, input)?;
    text(alloc, &hmac256(&key, &input))
}

// The key that is derived with so many parameters.
fn derivation(alloc: Global, call: &str, words: &[&str]) -> Result<String, Refusal> {
    let [key, fc, parameters @ ..] = words else {
        return Err(Refusal::Unreadable);
    };
    let key = octets(alloc, key)?;
    let fc = octet(fc)?;
    match (call, parameters) {
        ("kdf1", [p0]) => with_one(alloc, &key, fc, p0),
        ("kdf2", [p0, p1]) => with_two(alloc, &key, fc, p0, p1),
        ("kdf3", [p0, p1, p2]) => with_three(alloc, &key, fc, p0, p1, p2),
        _ => Err(Refusal::Unreadable),
    }
}

fn with_one(alloc: Global, key: &[u8], fc: u8, word: &str) -> Result<String, Refusal> {
    let p0 = parameter(alloc, word)?;
    text(alloc, &kdf1(key, fc, &p0))
}

fn with_two(
    alloc: Global,
    key: &[u8],
    fc: u8,
    first: &str,
    second: &str,
) -> Result<String, Refusal> {
    let p0 = parameter(alloc, first)?;
    let p1 = parameter(alloc, second)?;
    text(alloc, &kdf2(key, fc, &p0, &p1))
}

fn with_three(
    alloc: Global,
    key: &[u8],
    fc: u8,
    first: &str,
    second: &str,
    third: &str,
) -> Result<String, Refusal> {
    let p0 = parameter(alloc, first)?;
    let p1 = parameter(alloc, second)?;
    let p2 = parameter(alloc, third)?;
    text(alloc, &kdf3(key, fc, &p0, &p1, &p2))
}

// The answer to a call of the chain from CK and IK down to KAMF.
fn chain_answer(alloc: Global, call: &str, words: &[&str]) -> Result<String, Refusal> {
    match (call, words) {
        ("snn", [plmn]) => text(alloc, &snn(&network(plmn)?)),
        ("res_star", [ck, ik, plmn, rand, res]) => with_rand(alloc, ck, ik, plmn, rand, res),
        ("kausf", [ck, ik, plmn, hidden]) => with_hidden(alloc, ck, ik, plmn, hidden),
        ("kseaf", [kausf, plmn]) => text(alloc, &kseaf(&exactly(kausf)?, &network(plmn)?)),
        ("kamf", [kseaf, imsi, abba]) => with_abba(alloc, kseaf, imsi, abba),
        _ => Err(Refusal::Unreadable),
    }
}

fn with_rand(
    alloc: Global,
    ck: &str,
    ik: &str,
    plmn: &str,
    rand: &str,
    res: &str,
) -> Result<String, Refusal> {
    let plmn = network(plmn)?;
    let (ck, ik) = (exactly(ck)?, exactly(ik)?);
    let (rand, res) = (exactly(rand)?, exactly(res)?);
    text(alloc, &res_star(&ck, &ik, &plmn, &rand, &res))
}

fn with_hidden(
    alloc: Global,
    ck: &str,
    ik: &str,
    plmn: &str,
    hidden: &str,
) -> Result<String, Refusal> {
    let plmn = network(plmn)?;
    let (ck, ik) = (exactly(ck)?, exactly(ik)?);
    text(alloc, &kausf(&ck, &ik, &plmn, &exactly(hidden)?))
}

fn with_abba(alloc: Global, kseaf: &str, imsi: &str, abba: &str) -> Result<String, Refusal> {
    let kseaf = exactly(kseaf)?;
    let supi = subscriber(imsi)?;
    let abba = parameter(alloc, abba)?;
    text(alloc, &kamf(&kseaf, &supi, &abba))
}
