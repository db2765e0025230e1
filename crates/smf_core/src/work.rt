//! What the rows are made of: the session of an identity, messages, timers.
ghost use Rattle.std.specs.Prelude.{◌≡◌, ◌≤◌, length, option_map, OnOk};
ghost use Rattle.sm_messages.specs.Messages.{spelling};
ghost use Rattle.smf_core.specs.Drafts.{by};
ghost use Rattle.smf_core.specs.Work.{fence, frame, free, give_out, held, hold, say, say_frame, start, status, stop, stop_timer, vacate};

use crate::acts::Act;
use crate::cell::Cell;
use crate::draft::Work;
use crate::held::Held;
use crate::kept_message::KeptMessage;
use nas_base::{Memory, Psi};
use nas_elements::Address;
use nas_timers::{TimerId, deadline_after};
use sm_messages::{FiveGsmStatus, Sm, SmFrame};

impl<'a> Work<'a> {
    /// The session of an identity, if there is one.
    pub fn held(&self, psi: Psi) -> Option<&Held>
        ensures { option_map (λ h. h.now) result ≡ held psi self.now.work }
    {
        self.cell(psi).held.as_ref()
    }

    /// A session is kept so from now on.
    pub fn hold(&mut self, psi: Psi, session: Held) -> Result<(), Memory>
        ensures { OnOk result (self.new ≡ by (hold psi session) self.old) }
    {
        let answer = self.cell(psi).copied_answer(self.alloc())?;
        let cell = Cell {
            held: Some(session),
            answer,
        };
        self.put(psi, cell)
    }

    /// A session is kept no longer.
    pub fn vacate(&mut self, psi: Psi) -> Result<(), Memory>
        ensures { OnOk result (self.new ≡ by (vacate psi) self.old) }
    {
        let answer = self.cell(psi).copied_answer(self.alloc())?;
        self.put(psi, Cell { held: None, answer })
    }

    /// An address is free again, if there is one.
    #[tactic(auto, unfolding(nas_base::specs::Branches::per))]
    pub fn free(&mut self, address: Option<Address>) -> Result<(), Memory>
        ensures { OnOk result (self.new ≡ by (free address) self.old) }
    {
        match address {
            Some(address) => self.give(&address),
            None => Ok(()),
        }
    }

    /// A message goes down to the handset.
    pub fn say_frame(&mut self, psi: Psi, message: KeptMessage) -> Result<(), Memory>
        ensures { OnOk result (self.new ≡ by (say_frame psi message) self.old) }
    {
        self.act(Act::Down { psi, message })
    }

    /// A message goes down to the handset under these identities.
    pub fn say(&mut self, psi: Psi, pti: u8, body: Sm) -> Result<(), Memory>
        requires { length (spelling (frame psi pti body)) ≤ 4096 }
        ensures { OnOk result (self.new ≡ by (say psi pti body) self.old) }
    {
        let frame = SmFrame {
            psi: psi.0,
            pti,
            body,
        };
        let message = KeptMessage::of(self.alloc(), &frame)?;
        self.say_frame(psi, message)
    }

    /// 5GSM STATUS with this cause.
    pub fn status(&mut self, psi: Psi, pti: u8, cause: u8) -> Result<(), Memory>
        ensures { OnOk result (self.new ≡ by (status psi pti cause) self.old) }
    {
        self.say(psi, pti, Sm::FiveGsmStatus(FiveGsmStatus { cause }))
    }

    /// The AMF is to run a security mode procedure.
    pub fn fence(&mut self) -> Result<(), Memory>
        ensures { OnOk result (self.new ≡ by fence self.old) }
    {
        self.act(Act::Fence)
    }

    /// A timer is started for its duration.
    pub fn start(&mut self, id: TimerId) -> Result<(), Memory>
        ensures { OnOk result (self.new ≡ by (start id) self.old) }
    {
        let at = deadline_after(self.moment(), self.config().durations.of(&id));
        self.act(Act::Start { id, at })
    }

    /// A timer is stopped.
    pub fn stop(&mut self, id: TimerId) -> Result<(), Memory>
        ensures { OnOk result (self.new ≡ by (stop id) self.old) }
    {
        self.act(Act::Stop(id))
    }

    /// A command is given out: the session is kept with it, it goes down, and its timer is started.
    pub fn give_out(
        &mut self,
        message: KeptMessage,
        timer: TimerId,
        psi: Psi,
        session: Held,
    ) -> Result<(), Memory>
        ensures { OnOk result (self.new ≡ by (give_out message timer psi session) self.old) }
    {
        self.hold(psi, session)?;
        self.say_frame(psi, message)?;
        self.start(timer)
    }

    /// A timer is stopped, if there is one.
    #[tactic(auto, unfolding(nas_base::specs::Branches::per))]
    pub fn stop_timer(&mut self, timer: Option<TimerId>) -> Result<(), Memory>
        ensures { OnOk result (self.new ≡ by (stop_timer timer) self.old) }
    {
        match timer {
            Some(id) => self.stop(id),
            None => Ok(()),
        }
    }
}
