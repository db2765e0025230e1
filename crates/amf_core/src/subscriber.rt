//! The record of a subscriber.
ghost use Rattle.std.specs.Prelude.{◌≡◌, [], ◌∷◌};
ghost use Rattle.amf_core.specs.Naming.{is_any, is_guti, is_short_for};
ghost use Rattle.amf_core.specs.State.{unknown_yet, view_of, word_of};

use crate::requests::{copied, is_guti};
use crate::{AmfSubscriber, NetView, Procedure};
use arrayvec::ArrayVec;
use nas_base::{AmfWord, Ksi, Plmn, Supi};
use nas_elements::{Capability, Guti, Nssai, Status, Stmsi};
use nas_security::{Challenge, Context};
use std::marker::Model;

/// A 5G-GUTI that is kept: a place of `Gutis`. To contracts it is the 5G-GUTI itself.
#[derive(Drop)]
pub struct KeptGuti {
    pub guti: Guti,
}

impl Model for KeptGuti {
    ghost use Rattle.nas_elements.specs.declared.guti.Guti.{Guti};

    ghost Value = { Guti };

    ghost view = { λ k. k.guti };

    ghost inverse = { λ g. record { guti = g } };
}

// A list of a fixed size has a value at each place, also where nothing is kept; none of 5G-GUTIs can stand for nothing, so that
// `Guti` has no such value, and a place has one of its own, which no list shows.
impl Default for KeptGuti {
    fn default() -> KeptGuti {
        KeptGuti {
            guti: Guti {
                plmn: Plmn::from_codes(&[0, 0, 1], &[0, 1]).unwrap(),
                region: 0,
                set_pointer: 0,
                tmsi: 0,
            },
        }
    }
}

/// The 5G-GUTIs that are kept for a subscriber, at most two, the older one first.
#[derive(Drop)]
pub struct Gutis {
    pub items: ArrayVec<KeptGuti, 2>,
}

impl Model for Gutis {
    ghost use Rattle.std.specs.Prelude.{List};
    ghost use Rattle.nas_elements.specs.declared.guti.Guti.{Guti};

    ghost Value = { List Guti };

    ghost view = { λ g. g.items.items };
}

/// What told a 5G-GUTI that is offered: the messages that confirm it are different ones.
#[derive(Clone, Copy)]
pub enum OfferKind {
    /// REGISTRATION ACCEPT.
    Accept,
    /// CONFIGURATION UPDATE COMMAND.
    Update,
}

/// The 5G-GUTI that was offered last, the challenge of the context that it was offered under, and by which message.
#[derive(Drop)]
pub struct Offer {
    pub guti: Guti,
    pub challenge: Challenge,
    pub kind: OfferKind,
}

/// What an AMF keeps of a subscriber.
#[derive(Drop)]
pub struct Record {
    pub supi: Supi,
    /// The slices that are subscribed.
    pub slices: Nssai,
    /// The security context in use.
    pub in_use: Option<Context>,
    pub procedure: Procedure,
    pub kept: Gutis,
    pub offered: Option<Offer>,
    /// The 5G-TMSI of the update that the context in use has had, if it has had one.
    pub updated: Option<u32>,
    pub registered: bool,
    /// Whether the last 5G-GUTI that was offered has been confirmed.
    pub completed: bool,
    /// The link that a message of its last passed on, 1 to 64, until that is lost.
    pub link: Option<u16>,
    /// The last ngKSI that was used.
    pub last_ksi: Option<Ksi>,
    /// The capability of the last request that started a challenge.
    pub capability: Option<Capability>,
    /// The sessions that the SMF told last.
    pub status: Status,
}

// Whether a 5G-S-TMSI is short for a 5G-GUTI.
fn is_short_for(stmsi: &Stmsi, guti: &Guti) -> bool
    ensures { result ≡ is_short_for stmsi.now guti.now }
{
    stmsi.set_pointer == guti.set_pointer && stmsi.tmsi == guti.tmsi
}

impl Gutis {
    /// None.
    pub fn new() -> Gutis
        ensures { result ≡ [] }
    {
        Gutis {
            items: ArrayVec::new(),
        }
    }

    /// One alone.
    pub fn from_one(guti: Guti) -> Gutis
        ensures { result ≡ guti ∷ [] }
    {
        let mut items = ArrayVec::new();
        items.push(KeptGuti { guti });
        Gutis { items }
    }

    /// Two, the older one first.
    pub fn from_two(older: Guti, newer: Guti) -> Gutis
        ensures { result ≡ older ∷ newer ∷ [] }
    {
        let mut items = ArrayVec::new();
        items.push(KeptGuti { guti: older });
        items.push(KeptGuti { guti: newer });
        Gutis { items }
    }

    /// Those that are kept, in order.
    pub fn as_slice(&self) -> &[KeptGuti]
        ensures { result.now ≡ self.now }
    {
        self.items.as_slice()
    }

    /// Whether this one is kept.
    pub fn has(&self, guti: &Guti) -> bool
        ensures { result ≡ is_any (is_guti guti.now) self.now }
    {
        for kept in self.items.as_slice() {
            if is_guti(guti, &kept.guti) {
                return true;
            }
        }
        false
    }

    /// Whether one is kept that this is short for.
    pub fn has_short(&self, stmsi: &Stmsi) -> bool
        ensures { result ≡ is_any (is_short_for stmsi.now) self.now }
    {
        for kept in self.items.as_slice() {
            if is_short_for(stmsi, &kept.guti) {
                return true;
            }
        }
        false
    }

    /// An equal value.
    pub fn copy(&self) -> Gutis
        ensures { result ≡ self.now }
    {
        match self.items.as_slice() {
            [] => Gutis::new(),
            [one] => Gutis::from_one(one.guti.copy()),
            [older, newer, ..] => Gutis::from_two(older.guti.copy(), newer.guti.copy()),
        }
    }
}

/// An equal offer, where there is one.
pub fn copied_offer(offer: &Option<Offer>) -> Option<Offer>
    ensures { result ≡ offer.now }
{
    match offer {
        Some(offer) => Some(Offer {
            guti: offer.guti.copy(),
            challenge: offer.challenge,
            kind: offer.kind,
        }),
        None => None,
    }
}

impl Record {
    /// A subscriber of whom nothing is known yet.
    pub fn unknown_yet(config: &AmfSubscriber) -> Record
        ensures { result ≡ unknown_yet config.now }
    {
        Record {
            supi: config.supi.copy(),
            slices: config.slices.copy(),
            in_use: None,
            procedure: Procedure::Idle,
            kept: Gutis::new(),
            offered: None,
            updated: None,
            registered: false,
            completed: false,
            link: None,
            last_ksi: None,
            capability: None,
            status: Status::empty(),
        }
    }

    /// An equal value.
    pub fn copy(&self) -> Record
        ensures { result ≡ self.now }
    {
        Record {
            supi: self.supi.copy(),
            slices: self.slices.copy(),
            in_use: self.in_use,
            procedure: self.procedure.copy(),
            kept: self.kept.copy(),
            offered: copied_offer(&self.offered),
            updated: self.updated,
            registered: self.registered,
            completed: self.completed,
            link: self.link,
            last_ksi: self.last_ksi,
            capability: copied(&self.capability),
            status: self.status,
        }
    }

    /// Its word.
    pub fn word(&self) -> AmfWord
        ensures { result ≡ word_of self.now }
    {
        self.procedure.word(self.registered)
    }

    /// What can be seen of it.
    pub fn view(&self) -> NetView
        ensures { result ≡ view_of self.now }
    {
        NetView {
            state: self.word(),
            registered: self.registered,
            in_use: self.in_use,
            pending: self.procedure.pending(),
            kept: self.kept.copy(),
            completed: self.completed,
        }
    }
}
