//! A step while it goes on.
ghost use Rattle.std.specs.Prelude.{◌≡◌, OnOk};
ghost use Rattle.ue_mm.specs.Work.{answer, answer_protection, request, request_protection, say, start, status, stop, tell};

use crate::acts::{Act, Acts, Protection};
use crate::procedures::Phase;
use crate::{Common, UeOut};
use mm_messages::{FiveGmmStatus, Mm};
use nas_base::{Memory, Moment};
use nas_elements::Status;
use nas_timers::{TimerId, deadline_after};

/// A step while it goes on: the moment and the sessions that it was given, what is kept, and what was said so far. It is worked on
/// as a copy, so that want of memory leaves the state.
#[derive(Drop)]
pub struct Work {
    pub moment: Moment,
    /// The sessions whose word is Active, ModificationPending or InactivePending.
    pub held: Status,
    pub common: Common,
    pub phase: Phase,
    pub acts: Acts,
}

impl Work {
    /// A message is to be sent.
    pub fn say(&mut self, fresh: bool, protection: Protection, message: Mm) -> Result<(), Memory>
        ensures { OnOk result (self.new ≡ say fresh protection message self.old) }
    {
        self.acts.push(Act::Say {
            fresh,
            protection,
            message,
        })
    }

    /// Somebody is told something.
    pub fn tell(&mut self, out: UeOut) -> Result<(), Memory>
        ensures { OnOk result (self.new ≡ tell out self.old) }
    {
        self.acts.push(Act::Tell(out))
    }

    // What an answer is sent under.
    #[tactic(auto, unfolding(nas_base::specs::Branches::chosen))]
    fn answer_protection(&self) -> Protection
        ensures { result ≡ answer_protection self.now.common }
    {
        if self.common.secure {
            Protection::Ciphered
        } else {
            Protection::Plain
        }
    }

    /// An answer: protected on a secure connection, plain on any other.
    pub fn answer(&mut self, message: Mm) -> Result<(), Memory>
        ensures { OnOk result (self.new ≡ answer message self.old) }
    {
        let protection = self.answer_protection();
        self.say(false, protection, message)
    }

    /// 5GMM STATUS with this cause.
    pub fn status(&mut self, cause: u8) -> Result<(), Memory>
        ensures { OnOk result (self.new ≡ status cause self.old) }
    {
        self.answer(Mm::FiveGmmStatus(FiveGmmStatus { cause }))
    }

    // What a request of the handset's own is sent under.
    #[tactic(auto, unfolding(nas_base::specs::Branches::per))]
    fn request_protection(&self) -> Protection
        ensures { result ≡ request_protection self.now.common }
    {
        match self.common.current {
            Some(_) => Protection::IntegrityProtected,
            None => Protection::Plain,
        }
    }

    /// A request of the handset's own: integrity protected where a context is current.
    pub fn request(&mut self, message: Mm) -> Result<(), Memory>
        ensures { OnOk result (self.new ≡ request message self.old) }
    {
        let protection = self.request_protection();
        self.say(!self.common.connected, protection, message)
    }

    /// A timer is started for its duration.
    pub fn start(&mut self, id: TimerId) -> Result<(), Memory>
        ensures { OnOk result (self.new ≡ start id self.old) }
    {
        let at = deadline_after(self.moment, self.common.config.durations.of(&id));
        self.tell(UeOut::Start { id, at })
    }

    /// A timer is stopped.
    pub fn stop(&mut self, id: TimerId) -> Result<(), Memory>
        ensures { OnOk result (self.new ≡ stop id self.old) }
    {
        self.tell(UeOut::Stop(id))
    }
}
