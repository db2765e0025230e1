//! A step while it goes on.
ghost use Rattle.std.specs.Prelude.{◌≡◌, ◌≤◌, length, IfOk};
ghost use Rattle.sm_messages.specs.Messages.{spelling};
ghost use Rattle.ue_sm.specs.Outcome.{Requests, Works};
ghost use Rattle.ue_sm.specs.Work.{ended, request, requested, say, send, start, status, stop, stopped, tell};
ghost use Rattle.ue_sm.specs.declared.outs.SmOut.TheVariants.{Carry};

use crate::messages::{copied, spelled};
use crate::{Cell, SmOut, SmOuts, Transaction, UeSm};
use nas_base::{Memory, Moment, Psi, Pti};
use nas_elements::Dnn;
use nas_timers::{TimerId, deadline_after};
use sm_messages::{FiveGsmStatus, Sm, SmFrame};
use std::alloc::Global;

/// A step while it goes on: the moment that it was given, what is kept, and what goes out so far. What can want memory
/// is done before anything that is kept changes.
#[derive(Drop)]
pub struct Work {
    pub moment: Moment,
    pub state: UeSm,
    pub outs: SmOuts,
}

impl Work {
    /// One more goes out.
    pub fn tell(&mut self, out: SmOut) -> Result<(), Memory>
        ensures { Works self.old self.new result (tell out self.old) }
    {
        self.outs.push(out)
    }

    /// A message that answers, under the identities of what it answers.
    pub fn say(&mut self, alloc: Global, psi: Psi, pti: u8, message: Sm) -> Result<(), Memory>
        requires { length (spelling (record { psi = psi; pti = pti; body = message })) ≤ 4096 }
        ensures { Works self.old self.new result (say psi pti message self.old) }
    {
        let frame = spelled(
            alloc,
            &SmFrame {
                psi: psi.0,
                pti,
                body: message,
            },
        )?;
        self.tell(SmOut::Carry {
            psi,
            dnn: None,
            frame,
        })
    }

    /// 5GSM STATUS with this cause.
    pub fn status(&mut self, alloc: Global, psi: Psi, pti: u8, cause: u8) -> Result<(), Memory>
        ensures { Works self.old self.new result (status psi pti cause self.old) }
    {
        self.say(alloc, psi, pti, Sm::FiveGsmStatus(FiveGsmStatus { cause }))
    }

    /// A timer is started for its duration.
    pub fn start(&mut self, id: TimerId) -> Result<(), Memory>
        ensures { Works self.old self.new result (start id self.old) }
    {
        let at = deadline_after(self.moment, self.state.durations().of(&id));
        self.tell(SmOut::Start { id, at })
    }

    /// A timer is stopped.
    pub fn stop(&mut self, id: TimerId) -> Result<(), Memory>
        ensures { Works self.old self.new result (stop id self.old) }
    {
        self.tell(SmOut::Stop(id))
    }

    /// The timer of a session's transaction is stopped, if one is open.
    #[tactic(auto, unfolding(nas_base::specs::Branches::per))]
    pub fn stop_timer(&mut self, psi: Psi) -> Result<(), Memory>
        ensures { Works self.old self.new result (stopped psi self.old) }
    {
        match self.state.cell(psi).timer(psi) {
            Some(id) => self.stop(id),
            None => Ok(()),
        }
    }

    /// The session's transaction ends, which leaves this.
    pub fn end(&mut self, psi: Psi, cell: Cell) -> Result<(), Memory>
        ensures { Works self.old self.new result (ended psi cell self.old) }
    {
        self.stop_timer(psi)?;
        self.state.put(psi, cell);
        Ok(())
    }

    /// A transaction begins under the next identity: its request goes out, and its timer is started.
    pub fn request(
        &mut self,
        alloc: Global,
        psi: Psi,
        pti: Pti,
        id: TimerId,
        message: Sm,
        dnn: Option<Dnn>,
    ) -> Result<Transaction, Memory>
        requires next { self.old.state.next ≡ pti }
        requires short { length (spelling (record { psi = psi; pti = pti; body = message })) ≤ 4096 }
        ensures { Requests self.old self.new result (request psi dnn message self.old) (λ t. requested psi id t self.old) }
    {
        let frame = SmFrame {
            psi: psi.0,
            pti: pti.0,
            body: message,
        };
        let transaction = Transaction::new(alloc, pti, &frame, dnn)?;
        self.send(alloc, psi, &transaction)?;
        self.start(id)?;
        self.state.use_pti();
        Ok(transaction)
    }

    /// The request of a transaction goes out.
    pub fn send(&mut self, alloc: Global, psi: Psi, transaction: &Transaction) -> Result<(), Memory>
        ensures { Works self.old self.new result (send psi transaction.now self.old) }
    {
        let carry = carried(alloc, psi, transaction)?;
        self.tell(carry)
    }
}

/// The request of a transaction, to be carried.
pub fn carried(alloc: Global, psi: Psi, transaction: &Transaction) -> Result<SmOut, Memory>
    ensures { IfOk result (λ out. out ≡ Carry psi transaction.now.dnn (spelling transaction.now.request)) }
{
    let frame = copied(alloc, transaction.octets())?;
    Ok(SmOut::Carry {
        psi,
        dnn: transaction.dnn(),
        frame,
    })
}
