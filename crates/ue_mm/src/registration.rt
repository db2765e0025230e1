//! Registration.
ghost use Rattle.std.specs.Prelude.{◌≡◌, ◌≤◌, OnOk, length};
ghost use Rattle.mm_messages.specs.Messages.{spelling};
ghost use Rattle.ue_mm.specs.Registration.{kept, named, register, registered, registration_accepted, registration_left, registration_rejected, registration_request, told_sessions, type_of};

use crate::identification::{identity_of, ksi_of};
use crate::procedures::{Phase, Registration, copied};
use crate::work::Work;
use crate::{HandsetConfig, UeOut};
use mm_messages::{
    Mm, RegistrationAccept, RegistrationReject, RegistrationRequest, RegistrationType,
};
use nas_base::mm_cause::{ILLEGAL_UE, UE_IDENTITY_CANNOT_BE_DERIVED_BY_THE_NETWORK};
use nas_base::{Kind, Memory};
use nas_elements::{Guti, Status};
use nas_timers::TimerId;

// The registration type of a kind.
fn type_of(kind: Kind) -> RegistrationType
    ensures { result ≡ type_of kind }
{
    match kind {
        Kind::Initial => RegistrationType::Initial,
        Kind::Mobility => RegistrationType::Mobility,
        Kind::Periodic => RegistrationType::Periodic,
    }
}

/// The request of a registration, with the sessions that are told, if any.
#[tactic(auto, using(crate::proofs::Fits::request_fits))]
pub fn registration_request(
    config: &HandsetConfig,
    registration: &Registration,
    sessions: Option<Status>,
) -> Mm
    ensures value { result ≡ registration_request config.now registration.now sessions }
    ensures limit { length (spelling result) ≤ 4096 }
{
    Mm::RegistrationRequest(RegistrationRequest {
        registration: type_of(registration.kind),
        ksi: registration.ksi,
        identity: identity_of(config, &registration.guti),
        capability: Some(config.capability.copy()),
        status: sessions,
    })
}

/// The sessions that the whole request tells: none in an initial registration.
pub fn told_sessions(kind: Kind, held: Status) -> Option<Status>
    ensures { result ≡ told_sessions kind held }
{
    match kind {
        Kind::Initial => None,
        Kind::Mobility | Kind::Periodic => Some(held),
    }
}

impl Work {
    /// A registration begins.
    #[tactic(auto, unfolding(crate::specs::Registration::register))]
    pub fn register(&mut self, kind: Kind) -> Result<(), Memory>
        ensures { OnOk result (self.new ≡ register kind self.old) }
    {
        let registration = Registration {
            kind,
            ksi: ksi_of(&self.common.current),
            guti: copied(&self.common.guti),
        };
        let message = registration_request(&self.common.config, &registration, None);
        self.request(message)?;
        self.common.connected = true;
        self.phase = Phase::Registering(registration);
        self.start(TimerId::T3510)
    }

    /// REGISTRATION ACCEPT.
    #[tactic(auto, unfolding(crate::specs::Registration::registration_accepted, nas_base::specs::Branches::per))]
    pub fn registration_accepted(&mut self, accept: &RegistrationAccept) -> Result<(), Memory>
        ensures { OnOk result (self.new ≡ registration_accepted accept.now self.old) }
    {
        self.take_name(&accept.guti)?;
        match &self.phase {
            Phase::Registering(_) => self.registered(accept.status),
            _ => Ok(()),
        }
    }

    // A 5G-GUTI is taken, and its taking confirmed.
    #[tactic(auto, unfolding(nas_base::specs::Branches::per))]
    fn take_name(&mut self, guti: &Option<Guti>) -> Result<(), Memory>
        ensures { OnOk result (self.new ≡ named guti.now self.old) }
    {
        match guti {
            Some(guti) => {
                self.rename(guti);
                self.answer(Mm::RegistrationComplete)
            }
            None => Ok(()),
        }
    }

    // The registration ends well.
    fn registered(&mut self, sessions: Option<Status>) -> Result<(), Memory>
        ensures { OnOk result (self.new ≡ registered sessions self.old) }
    {
        self.stop(TimerId::T3510)?;
        self.stop(TimerId::T3516)?;
        self.phase = Phase::Registered;
        self.keep(sessions)
    }

    // The sessions that the network doesn't tell are no more.
    #[tactic(auto, unfolding(nas_base::specs::Branches::per))]
    fn keep(&mut self, sessions: Option<Status>) -> Result<(), Memory>
        ensures { OnOk result (self.new ≡ kept sessions self.old) }
    {
        match sessions {
            Some(held) => self.tell(UeOut::Keep(held)),
            None => Ok(()),
        }
    }

    /// REGISTRATION REJECT.
    #[tactic(auto, unfolding(crate::specs::Registration::registration_rejected, nas_base::specs::Branches::chosen))]
    pub fn registration_rejected(&mut self, reject: &RegistrationReject) -> Result<(), Memory>
        ensures { OnOk result (self.new ≡ registration_rejected reject.now self.old) }
    {
        if reject.cause == ILLEGAL_UE
            || reject.cause == UE_IDENTITY_CANNOT_BE_DERIVED_BY_THE_NETWORK
        {
            return self.deregister_and_erase();
        }
        self.deregister()
    }

    /// A registration of this kind ends without an answer.
    #[tactic(auto, unfolding(crate::specs::Registration::registration_left))]
    pub fn leave_registration(&mut self, kind: Kind) -> Result<(), Memory>
        ensures { OnOk result (self.new ≡ registration_left kind self.old) }
    {
        self.phase = match kind {
            Kind::Initial => Phase::Deregistered,
            Kind::Mobility | Kind::Periodic => Phase::Registered,
        };
        self.idle()
    }
}
