//! The answers to SECURITY MODE COMMAND.
ghost use Rattle.std.specs.Prelude.{◌≡◌, Ok, IfOk, OnOk};
ghost use Rattle.amf_core.specs.SecurityMode.{commanding_of, commanding_on, completed, goes_on, in_use, mode_completed, mode_rejected, switched, whole_by, whole_in, whole_of, whole_with};
ghost use Rattle.amf_core.specs.Work.{by};

use crate::acceptance::Whole;
use crate::naming::suci_digits;
use crate::registration::is_on;
use crate::work::Work;
use crate::{Challenging, Phase, Procedure, Purpose, Record, SmfAsk};
use mm_messages::{Mm, MmRefusal, RegistrationRequest, SecurityModeComplete, decode_mm};
use nas_base::{Memory, Octets};
use nas_elements::{Guti, Identity};
use nas_security::Context;
use std::alloc::Global;

/// A challenge whose context waits for the answer to its SECURITY MODE COMMAND.
#[derive(Drop)]
pub struct Commanding {
    pub challenging: Challenging,
    pub context: Context,
}

/// The challenge whose context waits for the answer to its command.
#[tactic(auto, unfolding(crate::specs::SecurityMode::commanding_of))]
pub fn commanding_of(procedure: &Procedure) -> Option<Commanding>
    ensures { result ≡ commanding_of procedure.now }
{
    let Procedure::Challenging(challenging) = procedure else {
        return None;
    };
    match &challenging.phase {
        Phase::Auth(_) => None,
        Phase::Mode(context) => Some(Commanding {
            challenging: challenging.copy(),
            context: *context,
        }),
    }
}

/// The same on this link alone.
#[tactic(auto, unfolding(crate::specs::SecurityMode::commanding_on, nas_base::specs::Branches::chosen, nas_base::specs::Branches::per))]
pub fn commanding_on(link: u16, procedure: &Procedure) -> Option<Commanding>
    ensures { result ≡ commanding_on link procedure.now }
{
    match commanding_of(procedure) {
        Some(commanding) if is_on(link, commanding.challenging.link) => Some(commanding),
        _ => None,
    }
}

// What is taken of the whole request, which names this 5G-GUTI, if any.
fn whole_with(guti: Option<Guti>, request: &RegistrationRequest) -> Whole
    ensures { result ≡ whole_with guti request.now }
{
    Whole {
        registration: request.registration,
        guti,
        status: request.status,
    }
}

// The same, where the request names this subscriber.
#[tactic(auto, unfolding(nas_base::specs::Branches::chosen))]
fn whole_by(request: &RegistrationRequest, s: &Record) -> Option<Whole>
    ensures { result ≡ whole_by request.now.identity request.now s.now }
{
    match &request.identity {
        Identity::Guti(guti) => Some(whole_with(Some(guti.copy()), request)),
        Identity::Suci(suci) => {
            if s.supi.as_slice() == suci_digits(suci).as_slice() {
                Some(whole_with(None, request))
            } else {
                None
            }
        }
        Identity::Stmsi(_) | Identity::Other(_) => None,
    }
}

// The same, where the message is a REGISTRATION REQUEST.
fn whole_of(message: &Mm, s: &Record) -> Option<Whole>
    ensures { result ≡ whole_of (Ok message.now) s.now }
{
    match message {
        Mm::RegistrationRequest(request) => whole_by(request, s),
        _ => None,
    }
}

// The whole request in SECURITY MODE COMPLETE.
#[tactic(auto, unfolding(nas_base::specs::Branches::per))]
fn whole_in(alloc: Global, message: &Option<Octets>, s: &Record) -> Result<Option<Whole>, Memory>
    ensures { IfOk result (λ whole. whole ≡ whole_in message.now s.now) }
{
    let Some(octets) = message else {
        return Ok(None);
    };
    match decode_mm(alloc, octets.as_slice()) {
        Ok(message) => Ok(whole_of(&message, s)),
        Err(MmRefusal::Memory) => Err(Memory),
        Err(MmRefusal::Ignored { at: _ })
        | Err(MmRefusal::UnknownType { n: _ })
        | Err(MmRefusal::Mandatory { part: _, at: _ }) => Ok(None),
    }
}

// A subscriber whose context is in use.
fn in_use(context: Context, s: Record) -> Record
    ensures { result ≡ in_use context s }
{
    Record {
        procedure: Procedure::Idle,
        in_use: Some(context),
        updated: None,
        ..s
    }
}

impl<'a> Work<'a> {
    /// SECURITY MODE REJECT.
    #[tactic(auto, unfolding(crate::specs::SecurityMode::mode_rejected, nas_base::specs::Branches::per))]
    pub fn mode_rejected(&mut self, link: u16, s: Record) -> Result<(), Memory>
        ensures { OnOk result (self.new ≡ by (mode_rejected link s) self.old) }
    {
        match commanding_on(link, &s.procedure) {
            Some(_) => self.end_open(s),
            None => Ok(()),
        }
    }

    // The context is in use from now on.
    fn switch(&mut self, commanding: &Commanding, s: &Record) -> Result<(), Memory>
        ensures { OnOk result (self.new ≡ by (switched commanding.now s.now) self.old) }
    {
        self.stop_open(s)?;
        self.put(in_use(commanding.context, s.copy()))?;
        self.ask(SmfAsk::Switched, s)
    }

    // What the challenge was for goes on.
    #[tactic(auto, unfolding(nas_base::specs::Branches::per))]
    fn go_on_with(
        &mut self,
        purpose: &Purpose,
        whole: Option<Whole>,
        link: u16,
        context: &Context,
        s: Record,
    ) -> Result<(), Memory>
        ensures { OnOk result (self.new ≡ by (goes_on purpose.now whole link context.now s) self.old) }
    {
        match (purpose, whole) {
            (Purpose::Registration(request), Some(whole)) => self.registration_goes_on(
                link, request, &whole, context, s,
            ),
            _ => Ok(()),
        }
    }

    // The command was completed.
    fn completed(
        &mut self,
        alloc: Global,
        complete: &SecurityModeComplete,
        link: u16,
        commanding: &Commanding,
        s: Record,
    ) -> Result<(), Memory>
        ensures { OnOk result (self.new ≡ by (completed complete.now link commanding.now s) self.old) }
    {
        let whole = whole_in(alloc, &complete.message, &s)?;
        self.switch(commanding, &s)?;
        let context = commanding.context;
        self.go_on_with(
            &commanding.challenging.purpose,
            whole,
            link,
            &context,
            in_use(context, s),
        )
    }

    /// SECURITY MODE COMPLETE under the context that was commanded.
    #[tactic(auto, unfolding(crate::specs::SecurityMode::mode_completed, nas_base::specs::Branches::per))]
    pub fn mode_completed(
        &mut self,
        alloc: Global,
        complete: &SecurityModeComplete,
        link: u16,
        s: Record,
    ) -> Result<(), Memory>
        ensures { OnOk result (self.new ≡ by (mode_completed complete.now link s) self.old) }
    {
        match commanding_of(&s.procedure) {
            Some(commanding) => self.completed(alloc, complete, link, &commanding, s),
            None => Ok(()),
        }
    }
}
