//! A new 5G-GUTI without a registration.
ghost use Rattle.std.specs.Prelude.{◌≡◌, ◌<◌, ◌^◌, OnOk};
ghost use Rattle.amf_core.specs.ConfigurationUpdate.{kept_beside, update_command, update_completed, update_ended, update_offered, update_opened, update_put, update_sent, updating_open};
ghost use Rattle.amf_core.specs.Offers.{tmsi_of};
ghost use Rattle.amf_core.specs.Work.{by};

use crate::acts::Protection;
use crate::offers::{confirmed, offered_by};
use crate::work::Work;
use crate::{Gutis, Offer, OfferKind, Procedure, Record, Updating};
use mm_messages::{ConfigurationUpdateCommand, Mm};
use nas_base::Memory;
use nas_elements::Guti;
use nas_layout::Half;
use nas_security::Challenge;
use nas_timers::TimerId;

// Configuration update indication: acknowledgement is requested (TS 24.501 clause 9.11.3.18).
const ACKNOWLEDGEMENT_REQUESTED: Half = Half(1);

// CONFIGURATION UPDATE COMMAND.
fn update_command(updating: &Updating) -> Mm
    ensures { result ≡ update_command updating.now }
{
    Mm::ConfigurationUpdateCommand(ConfigurationUpdateCommand {
        indication: Some(ACKNOWLEDGEMENT_REQUESTED),
        guti: Some(updating.guti.copy()),
    })
}

// The new 5G-GUTI beside the one that is kept.
fn kept_beside(guti: &Guti, kept: &Gutis) -> Gutis
    ensures { result ≡ kept_beside guti.now kept.now }
{
    match kept.as_slice() {
        [] => Gutis::from_one(guti.copy()),
        [older, ..] => Gutis::from_two(older.guti.copy(), guti.copy()),
    }
}

/// A subscriber with an update.
pub fn updating_open(updating: &Updating, s: Record) -> Record
    ensures { result ≡ updating_open updating.now s }
{
    Record {
        procedure: Procedure::Updating(updating.copy()),
        ..s
    }
}

// The same, where its 5G-GUTI is offered now.
fn update_opened(updating: &Updating, challenge: Challenge, s: Record) -> Record
    ensures { result ≡ update_opened updating.now challenge s }
{
    let kept = kept_beside(&updating.guti, &s.kept);
    Record {
        kept,
        offered: Some(Offer {
            guti: updating.guti.copy(),
            challenge,
            kind: OfferKind::Update,
        }),
        updated: Some(updating.guti.tmsi),
        completed: false,
        ..updating_open(updating, s)
    }
}

impl<'a> Work<'a> {
    // CONFIGURATION UPDATE COMMAND is sent.
    fn send_update(&mut self, updating: &Updating, s: &Record) -> Result<(), Memory>
        ensures { OnOk result (self.new ≡ by (update_sent updating.now s.now) self.old) }
    {
        let protection = Protection::Ciphered(s.supi.copy());
        self.say_on(s.link, protection, update_command(updating))
    }

    /// An update stands as the subscriber's procedure, its command is sent, and its timer runs.
    pub fn put_update(&mut self, updating: &Updating, s: Record) -> Result<(), Memory>
        ensures { OnOk result (self.new ≡ by (update_put updating.now s) self.old) }
    {
        self.put(s.copy())?;
        self.send_update(updating, &s)?;
        self.start(TimerId::T3555, &s)
    }

    /// A new 5G-GUTI is offered under this challenge.
    pub fn offer_update(&mut self, challenge: Challenge, s: Record) -> Result<(), Memory>
        requires { tmsi_of self.old.work < 2 ^ 32 }
        ensures { OnOk result (self.new ≡ by (update_offered challenge s) self.old) }
    {
        let updating = Updating {
            guti: self.next_guti(),
            sendings: 1,
        };
        let s = update_opened(&updating, challenge, s);
        self.put_update(&updating, s)
    }

    // The update ends, if it is still open.
    fn end_update(&mut self, s: Record) -> Result<(), Memory>
        ensures { OnOk result (self.new ≡ by (update_ended s.procedure s) self.old) }
    {
        match &s.procedure {
            Procedure::Updating(_) => self.end_open(s),
            Procedure::Idle
            | Procedure::Challenging(_)
            | Procedure::Accepting(_)
            | Procedure::Deregistering(_) => self.put(s),
        }
    }

    /// CONFIGURATION UPDATE COMPLETE under the context of this challenge.
    #[tactic(auto, unfolding(crate::specs::ConfigurationUpdate::update_completed, nas_base::specs::Branches::per))]
    pub fn update_completed(&mut self, challenge: &Challenge, s: Record) -> Result<(), Memory>
        ensures { OnOk result (self.new ≡ by (update_completed challenge.now s) self.old) }
    {
        match offered_by(OfferKind::Update, challenge, &s) {
            Some(guti) => self.end_update(confirmed(&guti, s)),
            None => Ok(()),
        }
    }
}
