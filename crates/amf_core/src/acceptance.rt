//! A registration that is accepted.
ghost use Rattle.std.specs.Prelude.{◌≡◌, ◌<◌, ◌^◌, OnOk};
ghost use Rattle.amf_core.specs.Acceptance.{acceptance_ended, acceptance_put, is_initial, kept_with, offered, opened_acceptance, registration_completed, registration_goes_on, registration_granted, released, told_sessions};
ghost use Rattle.amf_core.specs.Work.{by};

use crate::offers::{NO_TMSI, confirmed, offered_by};
use crate::work::Work;
use crate::{Accepting, Gutis, Offer, OfferKind, Procedure, Record, Request, SmfAsk};
use mm_messages::{Mm, RegistrationReject, RegistrationType};
use nas_base::Memory;
use nas_base::mm_cause::PROTOCOL_ERROR_UNSPECIFIED;
use nas_elements::{Guti, Status};
use nas_security::{Challenge, Context};
use nas_timers::TimerId;

/// What is taken of the whole request in SECURITY MODE COMPLETE: its kind, its 5G-GUTI, if it names one, and its sessions.
#[derive(Drop)]
pub struct Whole {
    pub registration: RegistrationType,
    pub guti: Option<Guti>,
    pub status: Option<Status>,
}

// Whether a registration is an initial one.
fn is_initial(registration: RegistrationType) -> bool
    ensures { result ≡ is_initial registration }
{
    match registration {
        RegistrationType::Initial => true,
        RegistrationType::Mobility | RegistrationType::Periodic | RegistrationType::Emergency =>
            false,
    }
}

// The sessions that the handset is told.
#[tactic(auto, unfolding(nas_base::specs::Branches::chosen, nas_base::specs::Branches::per))]
fn told_sessions(whole: &Whole, s: &Record) -> Status
    ensures { result ≡ told_sessions whole.now s.now }
{
    if is_initial(whole.registration) {
        return Status::empty();
    }
    match &whole.status {
        Some(held) => s.status.both(held),
        None => s.status,
    }
}

// The new 5G-GUTI, and before it the one that the request named, if it was kept.
#[tactic(auto, unfolding(nas_base::specs::Branches::chosen, nas_base::specs::Branches::per))]
fn kept_with(named: &Option<Guti>, guti: &Guti, kept: &Gutis) -> Gutis
    ensures { result ≡ kept_with named.now guti.now kept.now }
{
    match named {
        Some(named) if kept.has(named) => Gutis::from_two(named.copy(), guti.copy()),
        _ => Gutis::from_one(guti.copy()),
    }
}

// A subscriber with an acceptance.
fn opened_acceptance(
    accepting: &Accepting,
    named: &Option<Guti>,
    challenge: Challenge,
    s: Record,
) -> Record
    ensures { result ≡ opened_acceptance accepting.now named.now challenge s }
{
    let kept = kept_with(named, &accepting.guti, &s.kept);
    Record {
        procedure: Procedure::Accepting(accepting.copy()),
        kept,
        offered: Some(Offer {
            guti: accepting.guti.copy(),
            challenge,
            kind: OfferKind::Accept,
        }),
        registered: true,
        completed: false,
        ..s
    }
}

impl<'a> Work<'a> {
    // The sessions that the registration leaves are kept, all others released.
    #[tactic(auto, unfolding(nas_base::specs::Branches::chosen, nas_base::specs::Branches::per))]
    fn release(&mut self, whole: &Whole, s: &Record) -> Result<(), Memory>
        ensures { OnOk result (self.new ≡ by (released whole.now s.now) self.old) }
    {
        if is_initial(whole.registration) {
            return self.ask(SmfAsk::ReleaseAll, s);
        }
        match whole.status {
            Some(held) => self.ask(SmfAsk::KeepOnly(held), s),
            None => Ok(()),
        }
    }

    // An acceptance stands as the subscriber's procedure, REGISTRATION ACCEPT is sent, and its timer runs.
    fn put_acceptance(&mut self, link: u16, accepting: &Accepting, s: Record) -> Result<(), Memory>
        ensures { OnOk result (self.new ≡ by (acceptance_put link accepting.now s) self.old) }
    {
        self.put(s.copy())?;
        self.send_accept(accepting, link, &s)?;
        self.start(TimerId::T3550, &s)
    }

    // A new 5G-GUTI is offered.
    fn offer(
        &mut self,
        link: u16,
        request: &Request,
        whole: &Whole,
        challenge: Challenge,
        s: Record,
    ) -> Result<(), Memory>
        requires { self.old.work.amf.tmsi < 2 ^ 32 }
        ensures { OnOk result (self.new ≡ by (offered link request.now whole.now challenge s) self.old) }
    {
        let guti = self.next_guti();
        let accepting = Accepting {
            request: request.copy(),
            guti,
            status: told_sessions(whole, &s),
            sendings: 1,
        };
        let s = opened_acceptance(&accepting, &whole.guti, challenge, s);
        self.put_acceptance(link, &accepting, s)
    }

    // The registration is granted, where a 5G-TMSI is left.
    #[tactic(auto, unfolding(nas_base::specs::Branches::chosen))]
    fn grant(
        &mut self,
        link: u16,
        request: &Request,
        whole: &Whole,
        challenge: Challenge,
        s: Record,
    ) -> Result<(), Memory>
        ensures { OnOk result (self.new ≡ by (registration_granted link request.now whole.now challenge s) self.old) }
    {
        if self.tmsi() < NO_TMSI {
            return self.offer(link, request, whole, challenge, s);
        }
        self.answer_for(
            &s,
            link,
            Mm::RegistrationReject(RegistrationReject {
                cause: PROTOCOL_ERROR_UNSPECIFIED,
            }),
        )
    }

    /// A registration goes on under the context that has just been taken into use.
    #[tactic(auto, unfolding(crate::specs::Acceptance::registration_goes_on))]
    pub fn registration_goes_on(
        &mut self,
        link: u16,
        request: &Request,
        whole: &Whole,
        context: &Context,
        s: Record,
    ) -> Result<(), Memory>
        ensures { OnOk result (self.new ≡ by (registration_goes_on link request.now whole.now context.now s) self.old) }
    {
        self.release(whole, &s)?;
        self.grant(link, request, whole, context.challenge, s)
    }

    // The acceptance ends, if it is still open.
    fn end_acceptance(&mut self, s: Record) -> Result<(), Memory>
        ensures { OnOk result (self.new ≡ by (acceptance_ended s.procedure s) self.old) }
    {
        match &s.procedure {
            Procedure::Accepting(_) => self.end_open(s),
            Procedure::Idle
            | Procedure::Challenging(_)
            | Procedure::Updating(_)
            | Procedure::Deregistering(_) => self.put(s),
        }
    }

    /// REGISTRATION COMPLETE under the context of this challenge.
    #[tactic(auto, unfolding(crate::specs::Acceptance::registration_completed, nas_base::specs::Branches::per))]
    pub fn registration_completed(&mut self, challenge: &Challenge, s: Record) -> Result<(), Memory>
        ensures { OnOk result (self.new ≡ by (registration_completed challenge.now s) self.old) }
    {
        match offered_by(OfferKind::Accept, challenge, &s) {
            Some(guti) => self.end_acceptance(confirmed(&guti, s)),
            None => Ok(()),
        }
    }
}
