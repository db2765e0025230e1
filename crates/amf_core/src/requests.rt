//! REGISTRATION REQUESTs that are kept.
ghost use Rattle.std.specs.Prelude.{◌≡◌, ◌==◌};
ghost use Rattle.mm_messages.specs.Parts.{registration_type_code};
ghost use Rattle.amf_core.specs.Naming.{is_guti, is_plmn_of};
ghost use Rattle.amf_core.specs.Requests.{are_same_sessions, is_identity, is_option, is_same, is_suci};
ghost use Rattle.std.specs.Str.{bytes_eq};

use mm_messages::RegistrationType;
use nas_base::{Ksi, Plmn};
use nas_elements::{Capability, Guti, Status, Suci};

/// Who sent a request that is kept: only one that names its sender by a SUCI or a 5G-GUTI is.
#[derive(Drop)]
pub enum KeptIdentity {
    Suci(Suci),
    Guti(Guti),
}

/// A REGISTRATION REQUEST, as it came (TS 24.501 clause 8.2.6).
#[derive(Drop)]
pub struct Request {
    pub registration: RegistrationType,
    pub ksi: Ksi,
    pub identity: KeptIdentity,
    pub capability: Option<Capability>,
    pub status: Option<Status>,
}

// Whether two networks are the same.
fn is_plmn_of(one: &Plmn, other: &Plmn) -> bool
    ensures { result ≡ is_plmn_of one.now other.now }
{
    one.mcc.as_slice() == other.mcc.as_slice() && one.mnc.as_slice() == other.mnc.as_slice()
}

/// Whether two 5G-GUTIs are the same.
pub fn is_guti(one: &Guti, other: &Guti) -> bool
    ensures { result ≡ is_guti one.now other.now }
{
    is_plmn_of(&one.plmn, &other.plmn)
        && one.region == other.region
        && one.set_pointer == other.set_pointer
        && one.tmsi == other.tmsi
}

// Whether two SUCIs are the same.
fn is_suci(one: &Suci, other: &Suci) -> bool
    ensures { result ≡ is_suci one.now other.now }
{
    is_plmn_of(&one.plmn, &other.plmn)
        && one.routing.as_slice() == other.routing.as_slice()
        && one.msin.as_slice() == other.msin.as_slice()
}

// Whether two registrations are of the same type.
fn is_type(one: RegistrationType, other: RegistrationType) -> bool
    ensures { result ≡ (registration_type_code one == registration_type_code other) }
{
    one == other
}

// Whether two requests tell the same capability, if any.
fn is_capability(one: &Option<Capability>, other: &Option<Capability>) -> bool
    ensures { result ≡ is_option bytes_eq one.now other.now }
{
    match (one, other) {
        (None, None) => true,
        (Some(one), Some(other)) => one.as_slice() == other.as_slice(),
        _ => false,
    }
}

// Whether two requests tell the same sessions, if any.
fn is_status(one: &Option<Status>, other: &Option<Status>) -> bool
    ensures { result ≡ is_option are_same_sessions one.now other.now }
{
    match (one, other) {
        (None, None) => true,
        (Some(one), Some(other)) => are_same_sessions(one, other),
        _ => false,
    }
}

// Whether two sets hold the same sessions.
fn are_same_sessions(one: &Status, other: &Status) -> bool
    ensures { result ≡ are_same_sessions one.now other.now }
{
    one == other
}

impl KeptIdentity {
    // Whether this names the same.
    fn is_identity(&self, other: &KeptIdentity) -> bool
        ensures { result ≡ is_identity self.now other.now }
    {
        match (self, other) {
            (KeptIdentity::Suci(one), KeptIdentity::Suci(other)) => is_suci(one, other),
            (KeptIdentity::Guti(one), KeptIdentity::Guti(other)) => is_guti(one, other),
            _ => false,
        }
    }

    /// An equal value.
    pub fn copy(&self) -> KeptIdentity
        ensures { result ≡ self.now }
    {
        match self {
            KeptIdentity::Suci(suci) => KeptIdentity::Suci(copied_suci(suci)),
            KeptIdentity::Guti(guti) => KeptIdentity::Guti(guti.copy()),
        }
    }
}

impl Request {
    /// Whether it is equal in all its parts.
    pub fn is_same(&self, other: &Request) -> bool
        ensures { result ≡ is_same self.now other.now }
    {
        is_type(self.registration, other.registration)
            && self.ksi == other.ksi
            && self.identity.is_identity(&other.identity)
            && is_capability(&self.capability, &other.capability)
            && is_status(&self.status, &other.status)
    }

    /// An equal value.
    pub fn copy(&self) -> Request
        ensures { result ≡ self.now }
    {
        Request {
            registration: self.registration,
            ksi: self.ksi,
            identity: self.identity.copy(),
            capability: copied(&self.capability),
            status: self.status,
        }
    }
}

/// An equal SUCI.
pub fn copied_suci(suci: &Suci) -> Suci
    ensures { result ≡ suci.now }
{
    Suci {
        plmn: suci.plmn.copy(),
        routing: suci.routing.copy(),
        msin: suci.msin.copy(),
    }
}

/// An equal capability, where there is one.
pub fn copied(capability: &Option<Capability>) -> Option<Capability>
    ensures { result ≡ capability.now }
{
    match capability {
        Some(capability) => Some(capability.copy()),
        None => None,
    }
}
