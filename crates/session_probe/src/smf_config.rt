//! The SMF of a call; smf_calls lists its words.
ghost use Rattle.std.specs.Prelude.{◌≡◌};
ghost use Rattle.std.specs.List.{list_all};
ghost use Rattle.smf_core.specs.Config.{is_v4_alone, kinds_fit};

use nas_elements::{Ambr, Dnn, Dnns, Nssai};
use nas_pools::{DnnKind, DnnKinds, Pool6, is_pool_size, pool_fits};
use nas_timers::Durations;
use probe_words::{Refusal, duration, exactly, octets, quantity, subscriber};
use smf_core::{SmfConfig, SmfSubscriber, SmfSubscribers};
use std::alloc::Global;

// The pools of a call.
#[derive(Drop)]
struct Families {
    pool: [u8; 4],
    pool_size: u32,
    pool6: Option<Pool6>,
}

/// The SMF of these words.
pub fn read_config(
    alloc: Global,
    pools: &str,
    timers: &str,
    ambr: &str,
    kinds: &str,
    one: &str,
    other: &str,
) -> Result<SmfConfig, Refusal> {
    let Families {
        pool,
        pool_size,
        pool6,
    } = read_pools(alloc, pools)?;
    let kinds = read_kinds(alloc, kinds)?;
    if !is_pool_size(pool_size) || !pool_fits(&pool, pool_size) || !do_kinds_fit(&pool6, &kinds) {
        return Err(Refusal::Unreadable);
    }
    Ok(SmfConfig {
        pool,
        pool_size,
        pool6,
        ambr: read_ambr(alloc, ambr)?,
        durations: durations(timers)?,
        kinds,
        subscribers: both(
            alloc,
            read_subscriber(alloc, one)?,
            read_subscriber(alloc, other)?,
        )?,
    })
}

fn read_pools(alloc: Global, word: &str) -> Result<Families, Refusal> {
    let parts = parts_of(alloc, word, ':')?;
    let (pool, pool_size, pool6) = match parts.as_slice() {
        [pool, size] => (pool, size, None),
        [pool, size, first, size6] => (pool, size, Some(identifiers(first, size6)?)),
        _ => return Err(Refusal::Unreadable),
    };
    Ok(Families {
        pool: exactly::<4>(pool)?,
        pool_size: quantity(pool_size)?,
        pool6,
    })
}

fn identifiers(first: &str, size: &str) -> Result<Pool6, Refusal> {
    let first = u64::from_be_bytes(exactly::<8>(first)?);
    Pool6::from_parts(first, quantity(size)?).ok_or(Refusal::Unreadable)
}

// The durations of T3591 and T3592; all others are the standard ones.
fn durations(words: &str) -> Result<Durations, Refusal> {
    let Some((t3591, t3592)) = words.split_once(":") else {
        return Err(Refusal::Unreadable);
    };
    Ok(Durations {
        t3591: duration(t3591)?,
        t3592: duration(t3592)?,
        ..Durations::standard()
    })
}

/// A session AMBR.
pub fn read_ambr(alloc: Global, word: &str) -> Result<Ambr, Refusal> {
    Ambr::read(&octets(alloc, word)?).map_err(|_| Refusal::Unreadable)
}

/// A data network.
pub fn read_dnn(alloc: Global, word: &str) -> Result<Dnn, Refusal> {
    Dnn::read(&octets(alloc, word)?).map_err(|_| Refusal::Unreadable)
}

fn read_kinds(alloc: Global, word: &str) -> Result<DnnKinds, Refusal> {
    let mut items = Vec::new(alloc);
    if word != "none" {
        for part in parts_of(alloc, word, ',')? {
            items
                .push(read_kind(alloc, part)?)
                .map_err(|_| Refusal::Memory)?;
        }
    }
    DnnKinds::from_items(items).ok_or(Refusal::Unreadable)
}

fn read_kind(alloc: Global, word: &str) -> Result<DnnKind, Refusal> {
    let Some((dnn, kind)) = word.split_once(":") else {
        return Err(Refusal::Unreadable);
    };
    let dnn = read_dnn(alloc, dnn)?;
    match kind {
        "1" => Ok(DnnKind { dnn, kinds: 1 }),
        "2" => Ok(DnnKind { dnn, kinds: 2 }),
        "3" => Ok(DnnKind { dnn, kinds: 3 }),
        _ => Err(Refusal::Unreadable),
    }
}

// Whether data networks have IPv4 alone where there is nothing else.
fn do_kinds_fit(pool6: &Option<Pool6>, kinds: &DnnKinds) -> bool
    ensures { result ≡ kinds_fit pool6.now kinds.now }
{
    match pool6 {
        Some(_) => true,
        None => are_v4_alone(kinds.as_slice()),
    }
}

// Whether all data networks have IPv4 alone.
fn are_v4_alone(kinds: &[DnnKind]) -> bool
    ensures { result ≡ list_all is_v4_alone kinds.now }
{
    kinds.iter().all(|kind| is_v4_alone(kind))
}

fn is_v4_alone(kind: &DnnKind) -> bool
    ensures { result ≡ is_v4_alone kind.now }
{
    kind.kinds == 1
}

fn read_subscriber(alloc: Global, word: &str) -> Result<SmfSubscriber, Refusal> {
    let parts = parts_of(alloc, word, ':')?;
    let [supi, names, slices] = parts.as_slice() else {
        return Err(Refusal::Unreadable);
    };
    Ok(SmfSubscriber {
        supi: subscriber(supi)?,
        dnns: read_dnns(alloc, names)?,
        slices: Nssai::read(&octets(alloc, slices)?).map_err(|_| Refusal::Unreadable)?,
    })
}

fn read_dnns(alloc: Global, word: &str) -> Result<Dnns, Refusal> {
    let mut names = Vec::new(alloc);
    for part in parts_of(alloc, word, ',')? {
        names
            .push(read_dnn(alloc, part)?)
            .map_err(|_| Refusal::Memory)?;
    }
    Dnns::from_items(names).ok_or(Refusal::Unreadable)
}

// Two subscribers with two SUPIs.
fn both(
    alloc: Global,
    one: SmfSubscriber,
    other: SmfSubscriber,
) -> Result<SmfSubscribers, Refusal> {
    if one.supi == other.supi {
        return Err(Refusal::Unreadable);
    }
    let mut items = Vec::new(alloc);
    items.push(one).map_err(|_| Refusal::Memory)?;
    items.push(other).map_err(|_| Refusal::Memory)?;
    Ok(SmfSubscribers { items })
}

/// The parts of a word, with this character between.
pub fn parts_of<'a>(alloc: Global, word: &'a str, between: char) -> Result<Vec<&'a str>, Refusal> {
    word.split(between)
        .collect::<Vec<&str>>(alloc)
        .map_err(|_| Refusal::Memory)
}
