//! The timers of the subscribers.
ghost use Rattle.std.specs.Prelude.{◌≡◌, map, IfOk};
ghost use Rattle.nas_network.specs.TakingOver.{timers_after, timers_taken};
ghost use Rattle.nas_network.specs.State.{deadline_for, no_timers, started_for, stopped_for};

use crate::Subscriber;
use amf_core::AmfOut;
use mm_entity::is_same_supi;
use nas_base::{Memory, Moment, Supi};
use nas_timers::{TimerId, Timers};
use std::alloc::Global;
use std::marker::Model;

/// The timers of a subscriber.
#[derive(Drop)]
pub struct SubscriberTimers {
    pub supi: Supi,
    pub timers: Timers,
}

impl Model for SubscriberTimers {
    ghost use Rattle.nas_network.specs.State.{SubscriberTimers as Parts};

    ghost Value = { Parts };

    ghost view = { λ s. record { supi = s.supi; timers = s.timers } };
}

impl SubscriberTimers {
    // An equal value.
    fn copy(&self) -> SubscriberTimers
        ensures { result ≡ self.now }
    {
        SubscriberTimers {
            supi: self.supi.copy(),
            timers: self.timers.copy(),
        }
    }

    // None runs yet.
    fn none(subscriber: &Subscriber) -> SubscriberTimers
        ensures { result ≡ no_timers subscriber.now }
    {
        SubscriberTimers {
            supi: subscriber.supi.copy(),
            timers: Timers::new(),
        }
    }
}

/// A timer of a subscriber that starts, or stops.
#[derive(Drop)]
pub enum TimerChange {
    Start { supi: Supi, id: TimerId, at: Moment },
    Stop { supi: Supi, id: TimerId },
}

/// Timers start and stop, one after the other. It takes no memory.
pub fn change_all(timers: &mut [SubscriberTimers], changes: &[TimerChange])
    ensures { timers.new ≡ timers_after changes.now timers.old }
{
    for change in changes {
        match change {
            TimerChange::Start { supi, id, at } => start_for(timers, supi, *id, *at),
            TimerChange::Stop { supi, id } => stop_for(timers, supi, *id),
        }
    }
}

/// What goes out of a step starts and stops timers.
pub fn take_timers(timers: &mut [SubscriberTimers], outs: &[AmfOut])
    ensures { timers.new ≡ timers_taken outs.now timers.old }
{
    for out in outs {
        match out {
            AmfOut::Start { supi, id, at } => start_for(timers, supi, *id, *at),
            AmfOut::Stop { supi, id } => stop_for(timers, supi, *id),
            AmfOut::Send(_) | AmfOut::Passed(_) | AmfOut::Smf(_) => {}
        }
    }
}

/// Of none of the subscribers a timer runs.
pub fn none_run(alloc: Global, subscribers: &[Subscriber]) -> Result<Vec<SubscriberTimers>, Memory>
    ensures { IfOk result (λ timers. timers.items ≡ map no_timers subscribers.now) }
{
    let mut timers = Vec::new(alloc);
    for subscriber in subscribers {
        if timers.push(SubscriberTimers::none(subscriber)).is_err() {
            return Err(Memory);
        }
    }
    Ok(timers)
}

/// Equal timers.
pub fn copies(alloc: Global, from: &[SubscriberTimers]) -> Result<Vec<SubscriberTimers>, Memory>
    ensures { IfOk result (λ timers. timers.items ≡ from.now) }
{
    let mut timers = Vec::new(alloc);
    for subscriber in from {
        if timers.push(subscriber.copy()).is_err() {
            return Err(Memory);
        }
    }
    Ok(timers)
}

/// A timer of a subscriber is started.
pub fn start_for(timers: &mut [SubscriberTimers], supi: &Supi, id: TimerId, at: Moment)
    ensures { timers.new ≡ started_for supi.now id at timers.old }
{
    for subscriber in timers.iter_mut() {
        if is_same_supi(&subscriber.supi, supi) {
            subscriber.timers.start(id, at);
            return;
        }
    }
}

/// A timer of a subscriber is stopped.
pub fn stop_for(timers: &mut [SubscriberTimers], supi: &Supi, id: TimerId)
    ensures { timers.new ≡ stopped_for supi.now id timers.old }
{
    for subscriber in timers.iter_mut() {
        if is_same_supi(&subscriber.supi, supi) {
            subscriber.timers.stop(id);
            return;
        }
    }
}

/// The deadline of a timer of a subscriber.
pub fn deadline_for(timers: &[SubscriberTimers], supi: &Supi, id: TimerId) -> Option<Moment>
    ensures { result ≡ deadline_for supi.now id timers.now }
{
    for subscriber in timers {
        if is_same_supi(&subscriber.supi, supi) {
            return subscriber.timers.deadline(id);
        }
    }
    None
}
