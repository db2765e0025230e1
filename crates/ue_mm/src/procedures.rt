//! The procedures that a handset has open. Each owns what its message says; a transition to another phase consumes it. The timer
//! of a phase is `timer_of` in specs/State.antt: the rows start and stop it by its name.
ghost use Rattle.std.specs.Prelude.{◌≡◌};
ghost use Rattle.ue_mm.specs.State.{is_deregistering, registering_word, word_of};

use nas_base::{Kind, Ksi, MmWord};
use nas_elements::Guti;

/// A registration: its kind, and the ngKSI and the 5G-GUTI that its request names, as they were when it began (TS 24.501 clauses
/// 5.5.1.2 and 5.5.1.3). Its timer is T3510.
#[derive(Drop)]
pub struct Registration {
    pub kind: Kind,
    pub ksi: Ksi,
    pub guti: Option<Guti>,
}

/// A service request: the ngKSI and the 5G-GUTI that it names (TS 24.501 clause 5.6.1). Its timer is T3517.
#[derive(Drop)]
pub struct Service {
    pub ksi: Ksi,
    pub guti: Option<Guti>,
}

/// A deregistration: the ngKSI and the 5G-GUTI that its request names, and how often the request was sent (TS 24.501 clause
/// 5.5.2.2). Its timer is T3521.
#[derive(Drop)]
pub struct Deregistration {
    pub ksi: Ksi,
    pub guti: Option<Guti>,
    pub sendings: u8,
}

/// The state of a handset's 5GMM, with the procedure that is open in it (TS 24.501 clause 5.1.3.2.1).
#[derive(Drop)]
pub enum Phase {
    Deregistered,
    Registering(Registration),
    Registered,
    Serving(Service),
    Deregistering(Deregistration),
}

/// An equal 5G-GUTI, where there is one.
pub fn copied(guti: &Option<Guti>) -> Option<Guti>
    ensures { result ≡ guti.now }
{
    match guti {
        Some(guti) => Some(guti.copy()),
        None => None,
    }
}

impl Registration {
    /// The word of its state: an initial registration began in Deregistered, any other in Registered.
    pub fn word(&self) -> MmWord
        ensures { result ≡ registering_word self.now.kind }
    {
        match self.kind {
            Kind::Initial => MmWord::RegisteringNew,
            Kind::Mobility | Kind::Periodic => MmWord::RegisteringAgain,
        }
    }

    /// An equal value.
    pub fn copy(&self) -> Registration
        ensures { result ≡ self.now }
    {
        Registration {
            kind: self.kind,
            ksi: self.ksi,
            guti: copied(&self.guti),
        }
    }
}

impl Service {
    /// An equal value.
    pub fn copy(&self) -> Service
        ensures { result ≡ self.now }
    {
        Service {
            ksi: self.ksi,
            guti: copied(&self.guti),
        }
    }
}

impl Deregistration {
    /// An equal value.
    pub fn copy(&self) -> Deregistration
        ensures { result ≡ self.now }
    {
        Deregistration {
            ksi: self.ksi,
            guti: copied(&self.guti),
            sendings: self.sendings,
        }
    }
}

impl Phase {
    /// Its word.
    pub fn word(&self) -> MmWord
        ensures { result ≡ word_of self.now }
    {
        match self {
            Phase::Deregistered => MmWord::Deregistered,
            Phase::Registering(procedure) => procedure.word(),
            Phase::Registered => MmWord::Registered,
            Phase::Serving(_) => MmWord::Serving,
            Phase::Deregistering(_) => MmWord::Deregistering,
        }
    }

    /// Whether a deregistration is open.
    pub fn is_deregistering(&self) -> bool
        ensures { result ≡ is_deregistering self.now }
    {
        match self {
            Phase::Deregistering(_) => true,
            Phase::Deregistered | Phase::Registering(_) | Phase::Registered | Phase::Serving(_) => {
                false
            }
        }
    }
}
