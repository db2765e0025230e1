//! The AMF: what it keeps.
ghost use Rattle.std.specs.Prelude.{◌≡◌, map, option_map, IfOk};
ghost use Rattle.amf_core.specs.Changes.{changed};
ghost use Rattle.amf_core.specs.State.{first, has_number, numbered_from, subscriber_in, unknown_yet, view_in};
ghost use Rattle.amf_core.specs.Keyed.{all_current, current, found, newest};
ghost use Rattle.amf_core.specs.State.{is_same_link, is_same_subscriber};

use crate::changes::Changes;
use crate::{AmfConfig, AmfSubscriber, Configured, Link, NetView, Record};
use mm_entity::{are_same_digits, is_same_supi};
use nas_base::{Memory, Supi};
use std::alloc::Global;
use std::marker::Model;

// The number of links.
const LINKS: u16 = 64;

/// An AMF: what was configured, the next 5G-TMSI, and what it keeps of subscribers and links. A look-up walks over at most 64 records.
#[derive(Drop)]
pub struct Amf {
    pub(crate) config: Configured,
    pub(crate) tmsi: u64,
    pub(crate) subscribers: Vec<Record>,
    pub(crate) links: Vec<Link>,
}

impl Model for Amf {
    ghost use Rattle.std.specs.Prelude.{◌≤◌, ◌^◌};
    ghost use Rattle.amf_core.specs.State.{AmfState};

    ghost Value = { AmfState };

    ghost view = { λ a. record { config = a.config; tmsi = a.tmsi; subscribers = a.subscribers.items; links = a.links.items } };

    ghost invariant = { λ a. a.tmsi ≤ 2 ^ 32 };
}

impl Amf {
    /// An AMF that was just made: nothing is known yet of its subscribers, and nothing was exchanged on its links.
    ///
    /// # Errors
    ///
    /// `Memory`.
    pub fn new(alloc: Global, config: &AmfConfig) -> Result<Amf, Memory>
        ensures { IfOk result (λ amf. amf ≡ first config.now) }
    {
        let subscribers = subscribers_of(alloc, config.subscribers.items.as_slice())?;
        let links = unused_links(alloc)?;
        Ok(Amf {
            config: config.values(),
            tmsi: u64::from(config.tmsi),
            subscribers,
            links,
        })
    }

    /// An equal value.
    ///
    /// # Errors
    ///
    /// `Memory`.
    pub fn copy(&self, alloc: Global) -> Result<Amf, Memory>
        ensures { IfOk result (λ copy. copy ≡ self.now) }
    {
        let subscribers = copied_subscribers(alloc, self.subscribers.as_slice())?;
        let links = copied_links(alloc, self.links.as_slice())?;
        Ok(Amf {
            config: self.config.copy(),
            tmsi: self.tmsi,
            subscribers,
            links,
        })
    }

    /// What can be seen of a subscriber, or None exactly where the SUPI isn't kept.
    pub fn view(&self, supi: &Supi) -> Option<NetView>
        ensures { result ≡ view_in supi.now self.now }
    {
        match record_of(self.subscribers.as_slice(), supi.as_slice()) {
            Some(subscriber) => Some(subscriber.view()),
            None => None,
        }
    }

    /// Takes over what a step changed.
    pub(crate) fn take_over(&mut self, changes: &Changes)
        ensures { self.new ≡ changed changes.now self.old }
    {
        take_subscribers(
            self.subscribers.as_mut_slice(),
            changes.subscribers.as_slice(),
        );
        take_links(self.links.as_mut_slice(), changes.links.as_slice());
        self.tmsi = changes.tmsi;
    }
}

/// The newest of these records that is of the same subscriber.
pub fn newest_subscriber<'a>(changed: &'a [Record], kept: &Record) -> Option<&'a Record>
    ensures { option_map (λ s. s.now) result ≡ newest is_same_subscriber changed.now kept.now }
{
    for record in changed {
        if is_same_supi(&kept.supi, &record.supi) {
            return Some(record);
        }
    }
    None
}

/// The newest of these records that is of the same link.
pub fn newest_link<'a>(changed: &'a [Link], kept: &Link) -> Option<&'a Link>
    ensures { option_map (λ l. l.now) result ≡ newest is_same_link changed.now kept.now }
{
    for record in changed {
        if kept.number == record.number {
            return Some(record);
        }
    }
    None
}

// A record becomes what it is by now. One that didn't change isn't copied.
fn take_subscriber(kept: &mut Record, changed: &[Record])
    ensures { kept.new ≡ current is_same_subscriber changed.now kept.old }
{
    if let Some(by_now) = newest_subscriber(changed, kept) {
        *kept = by_now.copy();
    }
}

// The same for a link.
fn take_link(kept: &mut Link, changed: &[Link])
    ensures { kept.new ≡ current is_same_link changed.now kept.old }
{
    if let Some(by_now) = newest_link(changed, kept) {
        *kept = by_now.copy();
    }
}

// Each record becomes what it is by now.
#[tactic(auto, using(crate::proofs::Taking::taken_step))]
fn take_subscribers(records: &mut [Record], changed: &[Record])
    ensures { records.new ≡ all_current is_same_subscriber changed.now records.old }
{
    for record in records.iter_mut() {
        take_subscriber(record, changed);
    }
}

// The same for links.
#[tactic(auto, using(crate::proofs::Taking::taken_step))]
fn take_links(records: &mut [Link], changed: &[Link])
    ensures { records.new ≡ all_current is_same_link changed.now records.old }
{
    for record in records.iter_mut() {
        take_link(record, changed);
    }
}

/// The record of a SUPI, if there is one.
pub fn record_of<'a>(records: &'a [Record], supi: &[u8]) -> Option<&'a Record>
    ensures { option_map (λ s. s.now) result ≡ subscriber_in supi.now records.now }
{
    for record in records {
        if are_same_digits(record.supi.as_slice(), supi) {
            return Some(record);
        }
    }
    None
}

/// The record of a link, if there is one.
pub fn link_record_of(records: &[Link], number: u16) -> Option<&Link>
    ensures { option_map (λ l. l.now) result ≡ found (has_number number) records.now }
{
    for record in records {
        if record.number == number {
            return Some(record);
        }
    }
    None
}

// The records of subscribers of whom nothing is known yet.
fn subscribers_of(alloc: Global, configured: &[AmfSubscriber]) -> Result<Vec<Record>, Memory>
    ensures { IfOk result (λ records. records.items ≡ map unknown_yet configured.now) }
{
    let mut records = Vec::new(alloc);
    for subscriber in configured {
        if records.push(Record::unknown_yet(subscriber)).is_err() {
            return Err(Memory);
        }
    }
    Ok(records)
}

// The records of links that nothing was exchanged on.
#[tactic(auto, using(crate::proofs::Taking::numbered_more))]
fn unused_links(alloc: Global) -> Result<Vec<Link>, Memory>
    ensures { IfOk result (λ records. records.items ≡ numbered_from 64 1) }
{
    let mut records = Vec::new(alloc);
    for number in 1..LINKS + 1 {
        if records.push(Link::unused(number)).is_err() {
            return Err(Memory);
        }
    }
    Ok(records)
}

// Equal records of subscribers.
fn copied_subscribers(alloc: Global, from: &[Record]) -> Result<Vec<Record>, Memory>
    ensures { IfOk result (λ records. records.items ≡ from.now) }
{
    let mut records = Vec::new(alloc);
    for record in from {
        if records.push(record.copy()).is_err() {
            return Err(Memory);
        }
    }
    Ok(records)
}

// Equal records of links.
fn copied_links(alloc: Global, from: &[Link]) -> Result<Vec<Link>, Memory>
    ensures { IfOk result (λ records. records.items ≡ from.now) }
{
    let mut records = Vec::new(alloc);
    for record in from {
        if records.push(record.copy()).is_err() {
            return Err(Memory);
        }
    }
    Ok(records)
}
