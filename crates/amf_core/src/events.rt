//! Timers that expire, what the SMF wants, and links that are lost.
ghost use Rattle.std.specs.Prelude.{◌≡◌, ◌<◌, OnOk};
ghost use Rattle.amf_core.specs.Events.{acceptance_again, acceptance_resent, accepting_expired, carried_down, challenge_again, challenging_expired, deregistering_expired, dropped, expired, expired_of, fenced, fenced_of, is_challenged_on, link_lost_of, lost_for, sessions_told, unlinked, update_again, updating_expired};
ghost use Rattle.amf_core.specs.Work.{by};

use crate::acts::Protection;
use crate::challenges::{challenge_open, idle};
use crate::configuration_update::updating_open;
use crate::deregistration::unregistered;
use crate::registration::{acceptance, is_on};
use crate::work::Work;
use crate::{Accepting, Challenging, Link, Procedure, Purpose, Record, SmfAsk, Updating};
use nas_base::{Memory, Octets, Psi, Supi};
use nas_elements::Status;
use nas_timers::TimerId;
use std::alloc::Global;

// How often a message is sent (TS 24.501 clauses 5.4.1.3.7, 5.4.2.7, 5.4.4.6, 5.5.1.2.8 and 5.5.2.3.5).
const SENDINGS: u8 = 5;

// The same challenge, sent once more.
fn challenge_again(challenging: &Challenging) -> Challenging
    requires { challenging.now.sendings < 5 }
    ensures { result ≡ challenge_again challenging.now }
{
    Challenging {
        purpose: challenging.purpose.copy(),
        link: challenging.link,
        phase: challenging.phase.copy(),
        sendings: challenging.sendings + 1,
    }
}

// The same acceptance, sent once more.
fn acceptance_again(accepting: &Accepting) -> Accepting
    requires { accepting.now.sendings < 5 }
    ensures { result ≡ acceptance_again accepting.now }
{
    Accepting {
        request: accepting.request.copy(),
        guti: accepting.guti.copy(),
        status: accepting.status,
        sendings: accepting.sendings + 1,
    }
}

// The same update, sent once more.
fn update_again(updating: &Updating) -> Updating
    requires { updating.now.sendings < 5 }
    ensures { result ≡ update_again updating.now }
{
    Updating {
        guti: updating.guti.copy(),
        sendings: updating.sendings + 1,
    }
}

// Whether a challenge is on this link.
fn is_challenged_on(link: u16, procedure: &Procedure) -> bool
    ensures { result ≡ is_challenged_on link procedure.now }
{
    match procedure {
        Procedure::Challenging(challenging) => is_on(link, challenging.link),
        Procedure::Idle
        | Procedure::Accepting(_)
        | Procedure::Updating(_)
        | Procedure::Deregistering(_) => false,
    }
}

// A subscriber that doesn't have this link.
#[tactic(auto, unfolding(nas_base::specs::Branches::chosen))]
fn unlinked(link: u16, s: Record) -> Record
    ensures { result ≡ unlinked link s }
{
    let link = if is_on(link, s.link) { None } else { s.link };
    Record { link, ..s }
}

impl<'a> Work<'a> {
    // T3560 of a challenge.
    #[tactic(auto, unfolding(nas_base::specs::Branches::chosen))]
    fn challenging_expired(&mut self, challenging: &Challenging, s: Record) -> Result<(), Memory>
        ensures { OnOk result (self.new ≡ by (challenging_expired challenging.now s) self.old) }
    {
        if challenging.sendings >= SENDINGS {
            return self.put(idle(s));
        }
        let again = challenge_again(challenging);
        let s = challenge_open(&again, s);
        self.put_challenge(&again, s)
    }

    // REGISTRATION ACCEPT once more.
    fn resend_acceptance(&mut self, accepting: &Accepting, s: &Record) -> Result<(), Memory>
        ensures { OnOk result (self.new ≡ by (acceptance_resent accepting.now s.now) self.old) }
    {
        let message = acceptance(self.config(), accepting, s);
        self.say_on(s.link, Protection::Ciphered(s.supi.copy()), message)
    }

    // T3550 of an acceptance.
    #[tactic(auto, unfolding(nas_base::specs::Branches::chosen))]
    fn accepting_expired(&mut self, accepting: &Accepting, s: Record) -> Result<(), Memory>
        ensures { OnOk result (self.new ≡ by (accepting_expired accepting.now s) self.old) }
    {
        if accepting.sendings >= SENDINGS {
            return self.put(idle(s));
        }
        let again = acceptance_again(accepting);
        self.put(Record {
            procedure: Procedure::Accepting(again.copy()),
            ..s.copy()
        })?;
        self.resend_acceptance(&again, &s)?;
        self.start(TimerId::T3550, &s)
    }

    // T3555 of an update.
    #[tactic(auto, unfolding(nas_base::specs::Branches::chosen))]
    fn updating_expired(&mut self, updating: &Updating, s: Record) -> Result<(), Memory>
        ensures { OnOk result (self.new ≡ by (updating_expired updating.now s) self.old) }
    {
        if updating.sendings >= SENDINGS {
            return self.put(idle(s));
        }
        let again = update_again(updating);
        let s = updating_open(&again, s);
        self.put_update(&again, s)
    }

    // T3522 of a de-registration.
    #[tactic(auto, unfolding(nas_base::specs::Branches::chosen))]
    fn deregistering_expired(&mut self, sendings: u8, s: &Record) -> Result<(), Memory>
        ensures { OnOk result (self.new ≡ by (deregistering_expired (record { sendings = sendings }) s.now) self.old) }
    {
        if sendings >= SENDINGS {
            self.put(unregistered(s.copy()))?;
            return self.ask(SmfAsk::ReleaseAll, s);
        }
        self.put_deregistration(sendings + 1, s)
    }

    // A timer of a subscriber expired. One whose procedure has ended finds no owner.
    #[tactic(auto, unfolding(crate::specs::Events::expired_of))]
    fn expired_of(&mut self, id: &TimerId, s: Record) -> Result<(), Memory>
        ensures { OnOk result (self.new ≡ by (expired_of id.now s) self.old) }
    {
        match (id, &s.procedure) {
            (TimerId::T3560, Procedure::Challenging(challenging)) => {
                let challenging = challenging.copy();
                self.challenging_expired(&challenging, s)
            }
            (TimerId::T3550, Procedure::Accepting(accepting)) => {
                let accepting = accepting.copy();
                self.accepting_expired(&accepting, s)
            }
            (TimerId::T3555, Procedure::Updating(updating)) => {
                let updating = updating.copy();
                self.updating_expired(&updating, s)
            }
            (TimerId::T3522, Procedure::Deregistering(deregistering)) => {
                let sendings = deregistering.sendings;
                self.deregistering_expired(sendings, &s)
            }
            _ => Ok(()),
        }
    }

    /// A timer of a subscriber expired.
    #[tactic(auto, unfolding(crate::specs::Events::expired, nas_base::specs::Branches::per))]
    pub fn expired(&mut self, supi: &Supi, id: &TimerId) -> Result<(), Memory>
        ensures { OnOk result (self.new ≡ by (expired supi.now id.now) self.old) }
    {
        match self.subscriber(supi.as_slice()) {
            Some(s) => self.expired_of(id, s),
            None => Ok(()),
        }
    }

    // The SMF wants a security mode procedure.
    #[tactic(auto, unfolding(nas_base::specs::Branches::chosen))]
    fn fence_one(&mut self, alloc: Global, s: Record) -> Result<(), Memory>
        ensures { OnOk result (self.new ≡ by (fenced_of s) self.old) }
    {
        if !s.procedure.is_idle() {
            return Ok(());
        }
        self.challenge(alloc, Purpose::Command, s.link, None, s)
    }

    /// The SMF wants a security mode procedure of a subscriber.
    #[tactic(auto, unfolding(crate::specs::Events::fenced, nas_base::specs::Branches::per))]
    pub fn fence(&mut self, alloc: Global, supi: &Supi) -> Result<(), Memory>
        ensures { OnOk result (self.new ≡ by (fenced supi.now) self.old) }
    {
        match self.subscriber(supi.as_slice()) {
            Some(s) => self.fence_one(alloc, s),
            None => Ok(()),
        }
    }

    /// The SMF tells which sessions a subscriber has.
    #[tactic(auto, unfolding(crate::specs::Events::sessions_told, nas_base::specs::Branches::per))]
    pub fn sessions_told(&mut self, supi: &Supi, status: Status) -> Result<(), Memory>
        ensures { OnOk result (self.new ≡ by (sessions_told supi.now status) self.old) }
    {
        match self.subscriber(supi.as_slice()) {
            Some(s) => self.put(Record { status, ..s }),
            None => Ok(()),
        }
    }

    /// The SMF has a message for the handset of a subscriber.
    #[tactic(auto, unfolding(crate::specs::Events::carried_down, nas_base::specs::Branches::per))]
    pub fn carry_down(&mut self, supi: &Supi, psi: Psi, frame: Octets) -> Result<(), Memory>
        ensures { OnOk result (self.new ≡ by (carried_down supi.now psi frame) self.old) }
    {
        match self.subscriber(supi.as_slice()) {
            Some(s) => self.bring_down(psi, frame, &s),
            None => Ok(()),
        }
    }

    // The link of a subscriber is lost.
    #[tactic(auto, unfolding(nas_base::specs::Branches::chosen))]
    fn lose_link(&mut self, link: u16, s: Record) -> Result<(), Memory>
        ensures { OnOk result (self.new ≡ by (link_lost_of link s) self.old) }
    {
        if is_challenged_on(link, &s.procedure) {
            return self.end_open(unlinked(link, s));
        }
        self.put(unlinked(link, s))
    }

    // A link is lost that was this subscriber's, if any.
    #[tactic(auto, unfolding(nas_base::specs::Branches::per))]
    fn lose_for(&mut self, supi: &Option<Supi>, link: u16) -> Result<(), Memory>
        ensures { OnOk result (self.new ≡ by (lost_for supi.now link) self.old) }
    {
        let Some(supi) = supi else {
            return Ok(());
        };
        match self.subscriber(supi.as_slice()) {
            Some(s) => self.lose_link(link, s),
            None => Ok(()),
        }
    }

    /// A link is lost.
    #[tactic(auto, unfolding(crate::specs::Events::dropped))]
    pub fn dropped(&mut self, link: u16) -> Result<(), Memory>
        ensures { OnOk result (self.new ≡ by (dropped link) self.old) }
    {
        let supi = self.link(link).supi;
        self.put_link(Link::unused(link))?;
        self.lose_for(&supi, link)
    }
}
