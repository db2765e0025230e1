//! A network while it takes its steps.
ghost use Rattle.std.specs.Prelude.{◌≡◌, true, IfOk, OnOk};
ghost use Rattle.nas_network.specs.TakingOver.{Reaches, StepsOn, changed_by, taken_over};
ghost use Rattle.nas_network.specs.Network.{answered};
ghost use Rattle.nas_network.specs.Ticks.{told};
ghost use Rattle.nas_network.specs.Turns.{all_taken, begun, is_unrefused, stepped, taken, turned};

use crate::timers::{SubscriberTimers, TimerChange, change_all, copies};
use crate::{NetDelivery, Network};
use amf_core::{AmfInput, AmfOut, AmfOuts, AmfRefusal, Changes, Draft, follow};
use nas_base::{Memory, Moment};
use nas_security::{Pass, Sends};
use std::alloc::Global;
use std::marker::Model;

/// What a turn changed of a network, which is not taken over yet: the AMF's records and the home network, the timers, and the moment.
#[derive(Drop)]
pub struct NetTurn {
    pub(crate) changes: Changes,
    pub(crate) timers: Vec<TimerChange>,
    pub(crate) moment: Moment,
}

impl Model for NetTurn {
    ghost use Rattle.nas_network.specs.TakingOver.{TurnChanges};

    ghost Value = { TurnChanges };

    ghost view = { λ t. record { changes = t.changes; timers = t.timers.items; moment = t.moment } };
}

/// A network while it takes its steps, which itself stays as it is: the AMF and the home network as they are by now, the timers that it
/// began with and what started and stopped since, the moment, and what came of the steps so far.
#[derive(Drop)]
pub struct Turning<'a> {
    core: Draft<'a>,
    kept: &'a [SubscriberTimers],
    timers: Vec<TimerChange>,
    moment: Moment,
    sends: Sends,
    passed: Option<Pass>,
}

impl<'a> Model for Turning<'a> {
    ghost use Rattle.nas_network.specs.TakingOver.{TurningState, timers_after};

    ghost Value = { TurningState };

    ghost view = { λ t. record { turn = record { network = record { amf = t.core.amf; home = t.core.home; timers = timers_after t.timers.items t.kept.now; moment = t.moment }; sends = t.sends; passed = t.passed }; before = record { amf = t.core.before.amf; home = t.core.before.home; timers = t.kept.now; moment = t.moment } } };
}

impl<'a> Turning<'a> {
    /// A turn at its start, at a moment.
    pub fn begin(alloc: Global, network: &'a Network, moment: Moment) -> Turning<'a>
        ensures { result ≡ record { turn = begun (told moment network.now); before = told moment network.now } }
    {
        Turning {
            core: Draft::new(alloc, &network.amf, &network.home),
            kept: network.timers.as_slice(),
            timers: Vec::new(alloc),
            moment,
            sends: Sends::new(alloc),
            passed: None,
        }
    }

    /// The moment of its steps.
    pub fn moment(&self) -> Moment
        ensures { result ≡ self.now.turn.network.moment }
    {
        self.moment
    }

    /// The timers as they are by now.
    ///
    /// # Errors
    ///
    /// `Memory`.
    pub fn timers_by_now(&self, alloc: Global) -> Result<Vec<SubscriberTimers>, Memory>
        ensures { IfOk result (λ timers. timers.items ≡ self.now.turn.network.timers) }
    {
        let mut timers = copies(alloc, self.kept)?;
        change_all(timers.as_mut_slice(), self.timers.as_slice());
        Ok(timers)
    }

    /// What it changed, and what came of it.
    pub fn end(self) -> (NetTurn, NetDelivery)
        ensures { answered (taken_over result.0 self.entry.before) result.1 ≡ self.entry.turn }
    {
        let turn = NetTurn {
            changes: self.core.changes(),
            timers: self.timers,
            moment: self.moment,
        };
        let delivery = NetDelivery {
            sends: self.sends,
            passed: self.passed,
        };
        (turn, delivery)
    }

    /// The step of an input that no refusal meets.
    #[tactic(auto, using(crate::proofs::TakingOver::never_refused), unfolding(crate::specs::Turns::turned))]
    pub fn unrefused(
        self,
        alloc: Global,
        rand: &[u8; 16],
        input: &AmfInput,
    ) -> Result<Turning<'a>, Memory>
        requires { is_unrefused input.now ≡ true }
        ensures turn { IfOk result (λ turning. turning.turn ≡ turned rand.now input.now self.entry.turn) }
        ensures before { IfOk result (λ turning. turning.before ≡ self.entry.before) }
    {
        match self.step(alloc, rand, input) {
            Ok(turning) => Ok(turning),
            Err(AmfRefusal::Memory) => Err(Memory),
            Err(AmfRefusal::UnknownSupi) => unreachable!(),
            Err(AmfRefusal::WrongState { state: _ }) => unreachable!(),
            Err(AmfRefusal::SqnSpent { sqn: _ }) => unreachable!(),
            Err(AmfRefusal::Uncompleted { tmsi: _ }) => unreachable!(),
            Err(AmfRefusal::Updated { tmsi: _ }) => unreachable!(),
            Err(AmfRefusal::TmsiSpent { last: _ }) => unreachable!(),
        }
    }

    /// The step of an input.
    pub fn step(
        self,
        alloc: Global,
        rand: &[u8; 16],
        input: &AmfInput,
    ) -> Result<Turning<'a>, AmfRefusal>
        ensures { StepsOn self.entry result (stepped rand.now input.now self.entry.turn) }
    {
        let (turning, outs) = self.reach(alloc, rand, input)?;
        let mut turning = turning;
        match turning.take_all(alloc, outs) {
            Ok(()) => Ok(turning),
            Err(Memory) => Err(AmfRefusal::Memory),
        }
    }

    /// The step of an input, but for what goes out of it.
    pub fn reach(
        self,
        alloc: Global,
        rand: &[u8; 16],
        input: &AmfInput,
    ) -> Result<(Turning<'a>, AmfOuts), AmfRefusal>
        ensures { Reaches self.entry result (stepped rand.now input.now self.entry.turn) }
    {
        let Turning {
            core,
            kept,
            timers,
            moment,
            sends,
            passed,
        } = self;
        let (core, outs) = follow(alloc, core, moment, rand, input)?;
        let turning = Turning {
            core,
            kept,
            timers,
            moment,
            sends,
            passed,
        };
        Ok((turning, outs))
    }

    /// What goes out of a step, one after the other.
    pub fn take_all(&mut self, alloc: Global, outs: AmfOuts) -> Result<(), Memory>
        ensures { OnOk result (self.new ≡ record self.old { turn = all_taken outs self.old.turn }) }
    {
        for out in outs.items {
            self.take(alloc, out)?;
        }
        Ok(())
    }

    // One thing that goes out of a step.
    fn take(&mut self, alloc: Global, out: AmfOut) -> Result<(), Memory>
        ensures { OnOk result (self.new ≡ record self.old { turn = taken out self.old.turn }) }
    {
        match out {
            AmfOut::Send(send) => self.sends.push(alloc, send),
            AmfOut::Passed(pass) => {
                self.passed = Some(pass);
                Ok(())
            }
            AmfOut::Smf(_) => Ok(()),
            AmfOut::Start { supi, id, at } => self.change(TimerChange::Start { supi, id, at }),
            AmfOut::Stop { supi, id } => self.change(TimerChange::Stop { supi, id }),
        }
    }

    /// A timer starts or stops.
    #[tactic(auto, using(crate::proofs::TakingOver::changed_last))]
    pub fn change(&mut self, change: TimerChange) -> Result<(), Memory>
        ensures { OnOk result (self.new ≡ record self.old { turn = changed_by change self.old.turn }) }
    {
        match self.timers.push(change) {
            Ok(()) => Ok(()),
            Err(_) => Err(Memory),
        }
    }
}
