//! 5G-GUTIs that are offered to a handset, and confirmed by it.
ghost use Rattle.std.specs.Prelude.{◌≡◌, ◌<◌, ◌^◌};
ghost use Rattle.amf_core.specs.Offers.{confirmed, is_kind, new_guti, offered_by, tmsi_of, tmsi_taken};
ghost use Rattle.amf_core.specs.Work.{by, config_of};

use crate::work::Work;
use crate::{Configured, Gutis, OfferKind, Record};
use nas_elements::Guti;
use nas_security::Challenge;

/// 5G-TMSIs have 32 bits: where this is the next, none is left.
pub const NO_TMSI: u64 = 1 << 32;

// A new 5G-GUTI.
fn new_guti(config: &Configured, tmsi: u32) -> Guti
    ensures { result ≡ new_guti config.now tmsi }
{
    Guti {
        plmn: config.plmn.copy(),
        region: config.region,
        set_pointer: config.set_pointer,
        tmsi,
    }
}

// Whether an offer is of this kind.
fn is_kind(kind: OfferKind, other: OfferKind) -> bool
    ensures { result ≡ is_kind kind other }
{
    match (kind, other) {
        (OfferKind::Accept, OfferKind::Accept) | (OfferKind::Update, OfferKind::Update) => true,
        (OfferKind::Accept, OfferKind::Update) | (OfferKind::Update, OfferKind::Accept) => false,
    }
}

/// The 5G-GUTI that this kind of message offered under this challenge, if it was the last that was offered.
#[tactic(auto, unfolding(nas_base::specs::Branches::chosen, nas_base::specs::Branches::per))]
pub fn offered_by(kind: OfferKind, challenge: &Challenge, s: &Record) -> Option<Guti>
    ensures { result ≡ offered_by kind challenge.now s.now }
{
    let Some(offer) = &s.offered else {
        return None;
    };
    if is_kind(kind, offer.kind) && offer.challenge.equals(challenge) {
        Some(offer.guti.copy())
    } else {
        None
    }
}

/// A subscriber whose 5G-GUTI is confirmed.
pub fn confirmed(guti: &Guti, s: Record) -> Record
    ensures { result ≡ confirmed guti.now s }
{
    Record {
        kept: Gutis::from_one(guti.copy()),
        completed: true,
        ..s
    }
}

impl<'a> Work<'a> {
    /// A new 5G-GUTI, whose 5G-TMSI is then taken.
    pub fn next_guti(&mut self) -> Guti
        requires { self.old.work.amf.tmsi < 2 ^ 32 }
        ensures guti { result ≡ new_guti (config_of self.old.work) (tmsi_of self.old.work) }
        ensures taken { self.new ≡ by tmsi_taken self.old }
    {
        let tmsi = self.tmsi() as u32;
        let guti = new_guti(self.config(), tmsi);
        self.take_tmsi();
        guti
    }
}
