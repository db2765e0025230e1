//! A step while it goes on.
ghost use Rattle.std.specs.Prelude.{◌≡◌, ◌<◌, ◌^◌, IfOk, OnOk, if◌then◌else◌};
ghost use Rattle.amf_core.specs.Authentication.{is_right};
ghost use Rattle.amf_core.specs.Offers.{tmsi_of, tmsi_taken};
ghost use Rattle.amf_core.specs.Challenges.{VectorFits};
ghost use Rattle.amf_core.specs.Naming.{keeper, short_keeper};
ghost use Rattle.amf_core.specs.Step.{started};
ghost use Rattle.amf_core.specs.Work.{answer, answer_for, ask, by, by_link, config_of, link_of, own_protection, put, put_home, put_link, reject, say, say_on, start, status, stop, subscriber, subscriber_of_link, tell};
ghost use Rattle.milenage.specs.Home.{challenge_of, challenged, resync_of, resynced};

use crate::acts::{Act, Acts, Protection};
use crate::draft::Draft;
use crate::{AmfOut, Configured, Link, Record, SmfAsk, SmfCall};
use milenage::{HomeRefusal, Vector};
use mm_messages::{FiveGmmStatus, Mm, RegistrationReject};
use nas_base::{Memory, Moment, Supi};
use nas_elements::{Guti, Stmsi};
use nas_timers::{TimerId, deadline_after};
use std::alloc::Global;
use std::marker::Model;

/// A step while it goes on: the moment and the random octets that it was given, what is kept by now, and what was said so far.
#[derive(Drop)]
pub struct Work<'a> {
    moment: Moment,
    // The RAND of a challenge that starts in this step.
    rand: [u8; 16],
    core: Draft<'a>,
    acts: Acts,
}

impl<'a> Model for Work<'a> {
    ghost use Rattle.amf_core.specs.Work.{Working};

    ghost Value = { Working };

    ghost view = { λ w. record { work = record { moment = w.moment; rand = w.rand; amf = w.core.amf; home = w.core.home; acts = w.acts }; before = w.core.before } };
}

// What a message is sent under for a subscriber: protected on a secure link, plain on any other.
#[tactic(auto, unfolding(nas_base::specs::Branches::chosen))]
fn by_link(link: &Link, supi: &Supi) -> Protection
    ensures { result ≡ by_link link.now supi.now }
{
    if link.secure {
        Protection::Ciphered(supi.copy())
    } else {
        Protection::Plain
    }
}

// What a message is sent under that belongs to no procedure.
#[tactic(auto, unfolding(nas_base::specs::Branches::per))]
fn own_protection(link: &Link) -> Protection
    ensures { result ≡ own_protection link.now }
{
    match &link.supi {
        Some(supi) => by_link(link, supi),
        None => Protection::Plain,
    }
}

impl<'a> Work<'a> {
    /// A step at its start, on what those before it left.
    pub fn new(alloc: Global, core: Draft<'a>, moment: Moment, rand: &[u8; 16]) -> Work<'a>
        ensures { result ≡ record { work = started core.entry.amf core.entry.home moment rand.now; before = core.entry.before } }
    {
        Work {
            moment,
            rand: *rand,
            core,
            acts: Acts::new(alloc),
        }
    }

    /// What it leaves, and what was said.
    pub fn end(self) -> (Draft<'a>, Acts)
        ensures { result ≡ (record { amf = self.entry.work.amf; home = self.entry.work.home; before = self.entry.before }, self.entry.work.acts) }
    {
        (self.core, self.acts)
    }

    /// What was configured.
    pub fn config(&self) -> &Configured
        ensures { result.now ≡ config_of self.now.work }
    {
        self.core.config()
    }

    /// The record of a subscriber, by the digits of its SUPI.
    pub fn subscriber(&self, supi: &[u8]) -> Option<Record>
        ensures { result ≡ subscriber supi.now self.now.work }
    {
        self.core.subscriber(supi)
    }

    /// The record of the subscriber that a 5G-GUTI is kept for.
    pub fn keeper(&self, guti: &Guti) -> Option<Record>
        ensures { result ≡ keeper guti.now self.now.work }
    {
        self.core.keeper(guti)
    }

    /// The record of the subscriber that a 5G-GUTI with this 5G-S-TMSI is kept for.
    pub fn short_keeper(&self, stmsi: &Stmsi) -> Option<Record>
        ensures { result ≡ short_keeper stmsi.now self.now.work }
    {
        self.core.short_keeper(stmsi)
    }

    /// The record of a subscriber takes the place of the one before it.
    #[tactic(auto, unfolding(crate::specs::Work::put))]
    pub fn put(&mut self, subscriber: Record) -> Result<(), Memory>
        ensures { OnOk result (self.new ≡ by (put subscriber) self.old) }
    {
        self.core.put(subscriber)
    }

    /// The record of a link.
    pub fn link(&self, link: u16) -> Link
        ensures { result ≡ link_of link self.now.work }
    {
        self.core.link(link)
    }

    /// The record of a link takes the place of the one before it.
    #[tactic(auto, unfolding(crate::specs::Work::put_link))]
    pub fn put_link(&mut self, link: Link) -> Result<(), Memory>
        ensures { OnOk result (self.new ≡ by (put_link link) self.old) }
    {
        self.core.put_link(link)
    }

    /// The next 5G-TMSI, which is 2^32 where none is left.
    pub fn tmsi(&self) -> u64
        ensures { result ≡ tmsi_of self.now.work }
    {
        self.core.tmsi()
    }

    /// The next 5G-TMSI is taken.
    pub fn take_tmsi(&mut self)
        requires { tmsi_of self.old.work < 2 ^ 32 }
        ensures { self.new ≡ by tmsi_taken self.old }
    {
        self.core.take_tmsi();
    }

    /// A challenge of a subscriber, with the random octets of this step.
    pub fn next_vector(
        &mut self,
        alloc: Global,
        supi: &Supi,
    ) -> Result<Result<Vector, HomeRefusal>, Memory>
        ensures value { IfOk result (λ answer. (answer ≡ challenge_of supi.now self.old.work.rand self.old.work.home) × (self.new ≡ by (put_home (challenged supi.now self.old.work.rand self.old.work.home)) self.old)) }
        ensures limit { IfOk result VectorFits }
    {
        let rand = self.rand;
        self.core.challenge(alloc, supi, &rand)
    }

    /// Whether an AUTS is right. It brings SQN_HE up to SQN_MS then.
    pub fn resync(
        &mut self,
        alloc: Global,
        supi: &Supi,
        rand: &[u8; 16],
        auts: &[u8; 14],
    ) -> Result<bool, Memory>
        ensures right { IfOk result (λ right. right ≡ is_right (resync_of supi.now rand.now auts.now self.old.work.home)) }
        ensures home { IfOk result (λ right. self.new ≡ (if right then by (put_home (resynced supi.now rand.now auts.now self.old.work.home)) self.old else self.old)) }
    {
        self.core.resync(alloc, supi, rand, auts)
    }

    /// The subscriber that a link last passed or challenged.
    #[tactic(auto, unfolding(nas_base::specs::Branches::per))]
    pub fn subscriber_of_link(&self, link: u16) -> Option<Record>
        ensures { result ≡ subscriber_of_link link self.now.work }
    {
        match self.link(link).supi {
            Some(supi) => self.subscriber(supi.as_slice()),
            None => None,
        }
    }

    /// Somebody is told something.
    pub fn tell(&mut self, out: AmfOut) -> Result<(), Memory>
        ensures { OnOk result (self.new ≡ by (tell out) self.old) }
    {
        self.acts.push(Act::Tell(out))
    }

    /// A message is to be sent on a link.
    pub fn say(&mut self, link: u16, protection: Protection, message: Mm) -> Result<(), Memory>
        ensures { OnOk result (self.new ≡ by (say link protection message) self.old) }
    {
        self.acts.push(Act::Say {
            link,
            protection,
            message,
        })
    }

    /// A message is to be sent on a link, if there is one.
    #[tactic(auto, unfolding(nas_base::specs::Branches::per))]
    pub fn say_on(
        &mut self,
        link: Option<u16>,
        protection: Protection,
        message: Mm,
    ) -> Result<(), Memory>
        ensures { OnOk result (self.new ≡ by (say_on link protection message) self.old) }
    {
        match link {
            Some(link) => self.say(link, protection, message),
            None => Ok(()),
        }
    }

    /// An answer that belongs to no procedure.
    pub fn answer(&mut self, link: u16, message: Mm) -> Result<(), Memory>
        ensures { OnOk result (self.new ≡ by (answer link message) self.old) }
    {
        let protection = own_protection(&self.link(link));
        self.say(link, protection, message)
    }

    /// 5GMM STATUS with this cause.
    pub fn status(&mut self, link: u16, cause: u8) -> Result<(), Memory>
        ensures { OnOk result (self.new ≡ by (status link cause) self.old) }
    {
        self.answer(link, Mm::FiveGmmStatus(FiveGmmStatus { cause }))
    }

    /// REGISTRATION REJECT with this cause.
    pub fn reject(&mut self, link: u16, cause: u8) -> Result<(), Memory>
        ensures { OnOk result (self.new ≡ by (reject link cause) self.old) }
    {
        self.answer(link, Mm::RegistrationReject(RegistrationReject { cause }))
    }

    /// An answer that belongs to the procedure of a subscriber.
    pub fn answer_for(&mut self, s: &Record, link: u16, message: Mm) -> Result<(), Memory>
        ensures { OnOk result (self.new ≡ by (answer_for s.now link message) self.old) }
    {
        let protection = by_link(&self.link(link), &s.supi);
        self.say(link, protection, message)
    }

    /// A timer of a subscriber is started for its duration.
    pub fn start(&mut self, id: TimerId, s: &Record) -> Result<(), Memory>
        ensures { OnOk result (self.new ≡ by (start id s.now) self.old) }
    {
        let at = deadline_after(self.moment, self.config().durations.of(&id));
        let supi = s.supi.copy();
        self.tell(AmfOut::Start { supi, id, at })
    }

    /// A timer of a subscriber is stopped.
    pub fn stop(&mut self, id: TimerId, s: &Record) -> Result<(), Memory>
        ensures { OnOk result (self.new ≡ by (stop id s.now) self.old) }
    {
        let supi = s.supi.copy();
        self.tell(AmfOut::Stop { supi, id })
    }

    /// The SMF is asked something of a subscriber.
    pub fn ask(&mut self, call: SmfAsk, s: &Record) -> Result<(), Memory>
        ensures { OnOk result (self.new ≡ by (ask call s.now) self.old) }
    {
        let supi = s.supi.copy();
        self.tell(AmfOut::Smf(SmfCall { supi, call }))
    }
}
