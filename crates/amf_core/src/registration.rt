//! REGISTRATION REQUEST.
ghost use Rattle.std.specs.Prelude.{◌≡◌, OnOk};
ghost use Rattle.amf_core.specs.Naming.{keeper, named_by_suci};
ghost use Rattle.amf_core.specs.Registration.{accept, accept_sent, acceptance, counting_capability, equal_acceptance, identity_wanted, is_capable, is_emergency, is_enough, is_granted, is_on, is_periodic, is_purpose, is_running, kept, periodic_accepted, registration_requested, request_by_guti, request_by_identity, request_by_suci, request_weighed, requested};
ghost use Rattle.amf_core.specs.Work.{by};

use crate::acts::Protection;
use crate::requests::{copied, copied_suci};
use crate::work::Work;
use crate::{Accepting, Configured, KeptIdentity, Procedure, Purpose, Record, Request};
use mm_messages::{IdentityRequest, Mm, RegistrationAccept, RegistrationRequest, RegistrationType};
use nas_base::mm_cause::{
    ILLEGAL_UE, PROTOCOL_ERROR_UNSPECIFIED, UE_IDENTITY_CANNOT_BE_DERIVED_BY_THE_NETWORK,
    UE_SECURITY_CAPABILITIES_MISMATCH,
};
use nas_base::{Memory, Supi};
use nas_elements::{Capability, Guti, Identity, Nssai, Status, Suci, TaiList};
use nas_layout::Half;
use std::alloc::Global;

// Registration result: 3GPP access (TS 24.501 clause 9.11.3.6).
const THREE_GPP_ACCESS: u8 = 1;

// Type of identity SUCI (TS 24.501 clause 9.11.3.3).
const SUCI: Half = Half(1);

/// Whether a link, if there is one, is this one.
#[tactic(auto, unfolding(nas_base::specs::Branches::per))]
pub fn is_on(link: u16, own: Option<u16>) -> bool
    ensures { result ≡ is_on link own }
{
    match own {
        Some(other) => other == link,
        None => false,
    }
}

// Whether a capability has 128-NIA2, and 128-NEA2 or no ciphering.
fn is_enough(capability: &Capability) -> bool
    ensures { result ≡ is_enough capability.now }
{
    capability.has_ia(2) && (capability.has_ea(2) || capability.has_ea(0))
}

// The capability that counts: the one that the request tells, else the one that the subscriber told last.
#[tactic(auto, unfolding(nas_base::specs::Branches::per))]
fn counting_capability(request: &Request, s: &Record) -> Option<Capability>
    ensures { result ≡ counting_capability request.now s.now }
{
    match &request.capability {
        Some(capability) => Some(capability.copy()),
        None => copied(&s.capability),
    }
}

// Whether the capability that counts is there, and enough.
#[tactic(auto, unfolding(nas_base::specs::Branches::per))]
fn is_capable(request: &Request, s: &Record) -> bool
    ensures { result ≡ is_capable request.now s.now }
{
    match counting_capability(request, s) {
        Some(capability) => is_enough(&capability),
        None => false,
    }
}

// What is kept of a request, beside who sent it.
fn kept(request: &RegistrationRequest, identity: KeptIdentity) -> Request
    ensures { result ≡ kept request.now identity }
{
    Request {
        registration: request.registration,
        ksi: request.ksi,
        identity,
        capability: copied(&request.capability),
        status: request.status,
    }
}

// Whether a challenge is for a request equal to this.
fn is_purpose(request: &Request, purpose: &Purpose) -> bool
    ensures { result ≡ is_purpose request.now purpose.now }
{
    match purpose {
        Purpose::Registration(other) => request.is_same(other),
        Purpose::Command => false,
    }
}

// Whether an equal request has a challenge on this link already.
fn is_running(link: u16, request: &Request, procedure: &Procedure) -> bool
    ensures { result ≡ is_running link request.now procedure.now }
{
    match procedure {
        Procedure::Challenging(challenging) => {
            is_on(link, challenging.link) && is_purpose(request, &challenging.purpose)
        }
        Procedure::Idle
        | Procedure::Accepting(_)
        | Procedure::Updating(_)
        | Procedure::Deregistering(_) => false,
    }
}

// The acceptance that an equal request has already.
#[tactic(auto, unfolding(nas_base::specs::Branches::chosen))]
fn equal_acceptance(request: &Request, procedure: &Procedure) -> Option<Accepting>
    ensures { result ≡ equal_acceptance request.now procedure.now }
{
    match procedure {
        Procedure::Accepting(accepting) => {
            if request.is_same(&accepting.request) {
                Some(accepting.copy())
            } else {
                None
            }
        }
        Procedure::Idle
        | Procedure::Challenging(_)
        | Procedure::Updating(_)
        | Procedure::Deregistering(_) => None,
    }
}

// REGISTRATION ACCEPT.
fn accept(config: &Configured, slices: &Nssai, guti: Option<Guti>, status: Option<Status>) -> Mm
    ensures { result ≡ accept config.now slices.now guti status }
{
    Mm::RegistrationAccept(RegistrationAccept {
        result: THREE_GPP_ACCESS,
        guti,
        tai_list: Some(TaiList::of_one_area(&config.plmn, &config.tac)),
        nssai: Some(slices.copy()),
        status,
        t3512: Some(config.t3512),
    })
}

/// REGISTRATION ACCEPT of an acceptance.
pub fn acceptance(config: &Configured, accepting: &Accepting, s: &Record) -> Mm
    ensures { result ≡ acceptance config.now accepting.now s.now }
{
    accept(
        config,
        &s.slices,
        Some(accepting.guti.copy()),
        Some(accepting.status),
    )
}

// Whether a request is a periodic one.
fn is_periodic(registration: RegistrationType) -> bool
    ensures { result ≡ is_periodic registration }
{
    match registration {
        RegistrationType::Periodic => true,
        RegistrationType::Initial | RegistrationType::Mobility | RegistrationType::Emergency =>
            false,
    }
}

// Whether a request is for emergency registration.
fn is_emergency(registration: RegistrationType) -> bool
    ensures { result ≡ is_emergency registration }
{
    match registration {
        RegistrationType::Emergency => true,
        RegistrationType::Initial | RegistrationType::Mobility | RegistrationType::Periodic =>
            false,
    }
}

// Whether a periodic request passed for its subscriber, who is registered.
#[tactic(auto, unfolding(nas_base::specs::Branches::per))]
fn is_granted(passed: &Option<Supi>, request: &Request, s: &Record) -> bool
    ensures { result ≡ is_granted passed.now request.now s.now }
{
    let is_own = match passed {
        Some(supi) => supi.as_slice() == s.supi.as_slice(),
        None => false,
    };
    is_periodic(request.registration) && (is_own && s.registered)
}

impl<'a> Work<'a> {
    /// REGISTRATION ACCEPT of an acceptance, on this link.
    pub fn send_accept(
        &mut self,
        accepting: &Accepting,
        link: u16,
        s: &Record,
    ) -> Result<(), Memory>
        ensures { OnOk result (self.new ≡ by (accept_sent accepting.now link s.now) self.old) }
    {
        let message = acceptance(self.config(), accepting, s);
        self.say(link, Protection::Ciphered(s.supi.copy()), message)
    }

    // REGISTRATION ACCEPT of a periodic request.
    fn accept_periodic(&mut self, link: u16, s: &Record) -> Result<(), Memory>
        ensures { OnOk result (self.new ≡ by (periodic_accepted link s.now) self.old) }
    {
        let message = accept(self.config(), &s.slices, None, None);
        self.say(link, Protection::Ciphered(s.supi.copy()), message)
    }

    // A request of a subscriber whose capability is enough, in the order of its cases.
    #[tactic(auto, unfolding(crate::specs::Registration::request_weighed, nas_base::specs::Branches::chosen, nas_base::specs::Branches::per))]
    fn weigh_request(
        &mut self,
        alloc: Global,
        link: u16,
        passed: &Option<Supi>,
        request: Request,
        s: Record,
    ) -> Result<(), Memory>
        ensures { OnOk result (self.new ≡ by (request_weighed link passed.now request s) self.old) }
    {
        if is_running(link, &request, &s.procedure) {
            return Ok(());
        }
        if let Some(accepting) = equal_acceptance(&request, &s.procedure) {
            return self.send_accept(&accepting, link, &s);
        }
        if is_granted(passed, &request, &s) {
            return self.accept_periodic(link, &s);
        }
        let capability = counting_capability(&request, &s);
        self.challenge(
            alloc,
            Purpose::Registration(request),
            Some(link),
            capability,
            s,
        )
    }

    // A request of a subscriber that is known.
    #[tactic(auto, unfolding(crate::specs::Registration::requested, nas_base::specs::Branches::chosen))]
    fn requested(
        &mut self,
        alloc: Global,
        link: u16,
        passed: &Option<Supi>,
        request: Request,
        s: Record,
    ) -> Result<(), Memory>
        ensures { OnOk result (self.new ≡ by (requested link passed.now request s) self.old) }
    {
        if !is_capable(&request, &s) {
            return self.reject(link, UE_SECURITY_CAPABILITIES_MISMATCH);
        }
        self.weigh_request(alloc, link, passed, request, s)
    }

    // A request waits for the identity of who sent it, which is asked for.
    fn want_identity(&mut self, link: u16, request: Request) -> Result<(), Memory>
        ensures { OnOk result (self.new ≡ by (identity_wanted link request) self.old) }
    {
        let mut record = self.link(link);
        record.waiting = Some(request);
        self.put_link(record)?;
        self.answer(
            link,
            Mm::IdentityRequest(IdentityRequest {
                identity_type: SUCI,
            }),
        )
    }

    /// A request whose SUCI names this subscriber, if any.
    #[tactic(auto, unfolding(nas_base::specs::Branches::per))]
    pub fn request_by_suci(
        &mut self,
        alloc: Global,
        link: u16,
        passed: &Option<Supi>,
        request: Request,
        s: Option<Record>,
    ) -> Result<(), Memory>
        ensures { OnOk result (self.new ≡ by (request_by_suci link passed.now request s) self.old) }
    {
        match s {
            Some(s) => self.requested(alloc, link, passed, request, s),
            None => self.reject(link, ILLEGAL_UE),
        }
    }

    // A request whose 5G-GUTI is kept for this subscriber, if for any.
    #[tactic(auto, unfolding(nas_base::specs::Branches::per))]
    fn request_by_guti(
        &mut self,
        alloc: Global,
        link: u16,
        passed: &Option<Supi>,
        request: Request,
        s: Option<Record>,
    ) -> Result<(), Memory>
        ensures { OnOk result (self.new ≡ by (request_by_guti link passed.now request s) self.old) }
    {
        match s {
            Some(s) => self.requested(alloc, link, passed, request, s),
            None => self.want_identity(link, request),
        }
    }

    // A request that names its sender by a SUCI.
    fn request_of_suci(
        &mut self,
        alloc: Global,
        link: u16,
        passed: &Option<Supi>,
        request: Request,
        suci: &Suci,
    ) -> Result<(), Memory>
        ensures { OnOk result (self.new ≡ by (request_by_suci link passed.now request (named_by_suci suci.now self.old.work)) self.old) }
    {
        let s = self.named_by_suci(suci);
        self.request_by_suci(alloc, link, passed, request, s)
    }

    // A request that names its sender by a 5G-GUTI.
    fn request_of_guti(
        &mut self,
        alloc: Global,
        link: u16,
        passed: &Option<Supi>,
        request: Request,
        guti: &Guti,
    ) -> Result<(), Memory>
        ensures { OnOk result (self.new ≡ by (request_by_guti link passed.now request (keeper guti.now self.old.work)) self.old) }
    {
        let s = self.keeper(guti);
        self.request_by_guti(alloc, link, passed, request, s)
    }

    // A request by the identity that it names.
    fn request_by_identity(
        &mut self,
        alloc: Global,
        request: &RegistrationRequest,
        link: u16,
        passed: &Option<Supi>,
    ) -> Result<(), Memory>
        ensures { OnOk result (self.new ≡ by (request_by_identity request.now.identity request.now link passed.now) self.old) }
    {
        match &request.identity {
            Identity::Suci(suci) => {
                let kept = kept(request, KeptIdentity::Suci(copied_suci(suci)));
                self.request_of_suci(alloc, link, passed, kept, suci)
            }
            Identity::Guti(guti) => {
                let kept = kept(request, KeptIdentity::Guti(guti.copy()));
                self.request_of_guti(alloc, link, passed, kept, guti)
            }
            Identity::Stmsi(_) | Identity::Other(_) => {
                self.reject(link, UE_IDENTITY_CANNOT_BE_DERIVED_BY_THE_NETWORK)
            }
        }
    }

    /// REGISTRATION REQUEST on a link; `passed` is the subscriber under whose context it passed, if it did.
    #[tactic(auto, unfolding(crate::specs::Registration::registration_requested, nas_base::specs::Branches::chosen))]
    pub fn registration_requested(
        &mut self,
        alloc: Global,
        request: &RegistrationRequest,
        link: u16,
        passed: &Option<Supi>,
    ) -> Result<(), Memory>
        ensures { OnOk result (self.new ≡ by (registration_requested request.now link passed.now) self.old) }
    {
        if is_emergency(request.registration) {
            return self.reject(link, PROTOCOL_ERROR_UNSPECIFIED);
        }
        self.request_by_identity(alloc, request, link, passed)
    }
}
