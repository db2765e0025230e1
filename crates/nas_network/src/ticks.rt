//! The timers that are due at a moment.
ghost use Rattle.std.specs.Prelude.{◌≡◌, Some, IfOk};
ghost use Rattle.nas_network.specs.State.{stopped_for};
ghost use Rattle.nas_network.specs.TakingOver.{timers_taken};
ghost use Rattle.nas_network.specs.Ticks.{all_fired, due_for, due_list, due_named, expired, fired, first_due, found_with, is_due_of, is_sooner, sooner_of, without};
ghost use Rattle.nas_network.specs.Turns.{all_taken};

use crate::timers::{SubscriberTimers, TimerChange, copies, deadline_for, stop_for, take_timers};
use crate::turn::Turning;
use amf_core::{AmfInput, AmfOuts, AmfRefusal};
use nas_base::{Memory, Moment, Supi};
use nas_timers::{NAMES, TimerId};
use std::alloc::Global;
use std::marker::Model;

// How many names 64 subscribers' timers may have.
const MOST: usize = 64 * NAMES;

/// A timer of a subscriber that was due, and its deadline.
#[derive(Drop)]
pub struct DueTimer {
    pub supi: Supi,
    pub id: TimerId,
    pub at: Moment,
}

impl Model for DueTimer {
    ghost use Rattle.nas_network.specs.State.{stopped_for};
    ghost use Rattle.nas_network.specs.Ticks.{DueTimer as Parts};

    ghost Value = { Parts };

    ghost view = { λ d. record { supi = d.supi; id = d.id; at = d.at } };
}

impl DueTimer {
    // Whether its deadline is earlier, or the same with a name before the other's.
    fn is_sooner(&self, other: &DueTimer) -> bool
        ensures { result ≡ is_sooner self.now other.now }
    {
        self.at < other.at || self.at == other.at && self.id < other.id
    }

    // The sooner of this and of what was found before it.
    fn sooner_of(self, found: Option<DueTimer>) -> DueTimer
        ensures { Some result ≡ sooner_of self found }
    {
        match found {
            None => self,
            Some(other) => { if self.is_sooner(&other) { self } else { other } }
        }
    }
}

impl SubscriberTimers {
    // The one that is due first.
    #[tactic(auto, unfolding(nas_base::specs::Branches::per))]
    fn due(&self, now: Moment) -> Option<DueTimer>
        ensures { result ≡ due_for now self.now }
    {
        match self.timers.due(now) {
            Some(id) => self.named(&id),
            None => None,
        }
    }

    // The one of this name.
    #[tactic(auto, unfolding(nas_base::specs::Branches::per))]
    fn named(&self, id: &TimerId) -> Option<DueTimer>
        ensures { result ≡ due_named id.now self.now }
    {
        match self.timers.deadline(*id) {
            Some(at) => Some(DueTimer {
                supi: self.supi.copy(),
                id: *id,
                at,
            }),
            None => None,
        }
    }
}

// The sooner of what was found, and of this where there is one.
#[tactic(auto, unfolding(nas_base::specs::Branches::per))]
fn found_with(found: Option<DueTimer>, due: Option<DueTimer>) -> Option<DueTimer>
    ensures { result ≡ found_with found due }
{
    match due {
        Some(due) => Some(due.sooner_of(found)),
        None => found,
    }
}

/// Of all timers the one that is due first: by deadline, then by name, then by the subscriber's place.
pub fn first_due(now: Moment, timers: &[SubscriberTimers]) -> Option<DueTimer>
    ensures { result ≡ first_due now timers.now }
{
    let mut found = None;
    for subscriber in timers {
        found = found_with(found, subscriber.due(now));
    }
    found
}

/// The timers that are due at a moment, by deadline, then by name, then by the subscriber's place.
#[tactic(auto, using(crate::proofs::Due::none_due))]
pub fn due_list(
    alloc: Global,
    now: Moment,
    timers: &[SubscriberTimers],
) -> Result<Vec<DueTimer>, Memory>
    ensures { IfOk result (λ list. list.items ≡ due_list now timers.now) }
{
    match first_due(now, timers) {
        Some(_) => due_of(alloc, now, copies(alloc, timers)?),
        None => Ok(Vec::new(alloc)),
    }
}

// The same of timers that are its own.
fn due_of(
    alloc: Global,
    now: Moment,
    timers: Vec<SubscriberTimers>,
) -> Result<Vec<DueTimer>, Memory>
    ensures { IfOk result (λ list. list.items ≡ due_list now timers.items) }
{
    let mut left = timers;
    let mut list = Vec::new(alloc);
    for _ in 0..MOST {
        let Some(due) = first_due(now, left.as_slice()) else {
            break;
        };
        stop_due(&mut left, &due);
        if list.push(due).is_err() {
            return Err(Memory);
        }
    }
    Ok(list)
}

/// Timers that were due fire, one after the other. Where none was, nothing is copied.
pub fn fire_all<'a>(
    alloc: Global,
    rand: &[u8; 16],
    list: Vec<DueTimer>,
    turning: Turning<'a>,
) -> Result<Turning<'a>, Memory>
    ensures turn { IfOk result (λ fired. fired.turn ≡ all_fired rand.now list.items turning.entry.turn) }
    ensures before { IfOk result (λ fired. fired.before ≡ turning.entry.before) }
{
    if list.is_empty() {
        return Ok(turning);
    }
    let mut firing = Firing::begin(alloc, turning)?;
    for due in list {
        firing = firing.fire(alloc, rand, due)?;
    }
    Ok(firing.turning)
}

// A turn in which timers fire, and the timers as they are by now.
#[derive(Drop)]
struct Firing<'a> {
    turning: Turning<'a>,
    timers: Vec<SubscriberTimers>,
}

impl<'a> Model for Firing<'a> {
    ghost use Rattle.std.specs.Prelude.{◌≡◌};
    ghost use Rattle.nas_network.specs.TakingOver.{TurningState};

    ghost Value = { TurningState };

    ghost view = { λ f. f.turning };

    ghost invariant = { λ f. f.timers.items ≡ f.turning.turn.network.timers };
}

impl<'a> Firing<'a> {
    // None fired yet.
    fn begin(alloc: Global, turning: Turning<'a>) -> Result<Firing<'a>, Memory>
        ensures { IfOk result (λ firing. firing ≡ turning.entry) }
    {
        let timers = turning.timers_by_now(alloc)?;
        Ok(Firing { turning, timers })
    }

    // A timer that was due when the tick began.
    #[tactic(auto, unfolding(crate::specs::Ticks::fired, nas_base::specs::Branches::chosen))]
    fn fire(self, alloc: Global, rand: &[u8; 16], due: DueTimer) -> Result<Firing<'a>, Memory>
        ensures turn { IfOk result (λ firing. firing.turn ≡ fired rand.now due self.entry.turn) }
        ensures before { IfOk result (λ firing. firing.before ≡ self.entry.before) }
    {
        if !due.is_due(self.turning.moment(), self.timers.as_slice()) {
            return Ok(self);
        }
        self.expire(alloc, rand, due)
    }

    // It is stopped, and the step of its expiry is taken.
    #[tactic(auto, using(crate::proofs::TakingOver::never_refused, crate::proofs::TakingOver::taken_timers), unfolding(crate::specs::Turns::turned))]
    fn expire(self, alloc: Global, rand: &[u8; 16], due: DueTimer) -> Result<Firing<'a>, Memory>
        ensures turn { IfOk result (λ firing. firing.turn ≡ expired rand.now due self.entry.turn) }
        ensures before { IfOk result (λ firing. firing.before ≡ self.entry.before) }
    {
        let Firing { turning, timers } = self;
        let timers = stopped(timers, &due);
        let turning = turning.stopped(alloc, &due)?;
        let expired = AmfInput::Expired {
            supi: due.supi,
            id: due.id,
        };
        match turning.reach(alloc, rand, &expired) {
            Ok((turning, outs)) => gone_on(alloc, turning, timers, outs),
            Err(AmfRefusal::Memory) => Err(Memory),
            Err(AmfRefusal::UnknownSupi) => unreachable!(),
            Err(AmfRefusal::WrongState { state: _ }) => unreachable!(),
            Err(AmfRefusal::SqnSpent { sqn: _ }) => unreachable!(),
            Err(AmfRefusal::Uncompleted { tmsi: _ }) => unreachable!(),
            Err(AmfRefusal::Updated { tmsi: _ }) => unreachable!(),
            Err(AmfRefusal::TmsiSpent { last: _ }) => unreachable!(),
        }
    }
}

// What goes out of a step is taken.
#[tactic(auto, using(crate::proofs::TakingOver::taken_timers))]
fn gone_on<'a>(
    alloc: Global,
    turning: Turning<'a>,
    timers: Vec<SubscriberTimers>,
    outs: AmfOuts,
) -> Result<Firing<'a>, Memory>
    requires { timers.items ≡ turning.turn.network.timers }
    ensures turn { IfOk result (λ firing. firing.turn ≡ all_taken outs turning.entry.turn) }
    ensures before { IfOk result (λ firing. firing.before ≡ turning.entry.before) }
{
    let timers = taken(timers, &outs);
    let mut turning = turning;
    turning.take_all(alloc, outs)?;
    Ok(Firing { turning, timers })
}

// The timers once one of them is stopped.
fn stopped(timers: Vec<SubscriberTimers>, due: &DueTimer) -> Vec<SubscriberTimers>
    ensures { result.items ≡ stopped_for due.now.supi due.now.id timers.items }
{
    let mut timers = timers;
    stop_due(&mut timers, due);
    timers
}

// The timers as what goes out of a step leaves them.
fn taken(timers: Vec<SubscriberTimers>, outs: &AmfOuts) -> Vec<SubscriberTimers>
    ensures { result.items ≡ timers_taken outs.now timers.items }
{
    let mut timers = timers;
    take_all(&mut timers, outs);
    timers
}

// What goes out of a step starts and stops timers.
fn take_all(timers: &mut Vec<SubscriberTimers>, outs: &AmfOuts)
    ensures { timers.new.items ≡ timers_taken outs.now timers.old.items }
{
    take_timers(timers.as_mut_slice(), outs.items.as_slice());
}

impl<'a> Turning<'a> {
    // One of the timers is stopped.
    fn stopped(self, alloc: Global, due: &DueTimer) -> Result<Turning<'a>, Memory>
        ensures turn { IfOk result (λ turning. turning.turn ≡ record self.entry.turn { network = without due.now self.entry.turn.network }) }
        ensures before { IfOk result (λ turning. turning.before ≡ self.entry.before) }
    {
        let stop = TimerChange::Stop {
            supi: due.supi.copy(),
            id: same(&due.id),
        };
        let mut turning = self;
        turning.change(stop)?;
        Ok(turning)
    }
}

impl DueTimer {
    // Whether the deadline of a timer is still there and has come.
    #[tactic(auto, unfolding(nas_base::specs::Branches::per))]
    fn is_due(&self, moment: Moment, timers: &[SubscriberTimers]) -> bool
        ensures { result ≡ is_due_of self.now moment timers.now }
    {
        match deadline_for(timers, &self.supi, same(&self.id)) {
            Some(at) => at <= moment,
            None => false,
        }
    }
}

// One of them is stopped.
fn stop_due(timers: &mut Vec<SubscriberTimers>, due: &DueTimer)
    ensures { timers.new.items ≡ stopped_for due.now.supi due.now.id timers.old.items }
{
    stop_for(timers.as_mut_slice(), &due.supi, same(&due.id));
}

// The same name once more.
fn same(id: &TimerId) -> TimerId
    ensures { result ≡ id.now }
{
    *id
}
