//! What steps leave, while they go on.
ghost use Rattle.std.specs.Prelude.{◌≡◌, ◌+◌, ◌<◌, ◌^◌, option_map, IfOk, OnOk, if◌then◌else◌};
ghost use Rattle.amf_core.specs.Authentication.{is_right};
ghost use Rattle.amf_core.specs.Challenges.{VectorFits};
ghost use Rattle.amf_core.specs.Drafts.{drafted};
ghost use Rattle.amf_core.specs.Keyed.{current, found};
ghost use Rattle.amf_core.specs.Naming.{keeps_guti, keeps_stmsi};
ghost use Rattle.amf_core.specs.State.{has_number, is_same_link, is_same_subscriber, link_in, subscriber_in, with_link, with_next_tmsi, with_subscriber};
ghost use Rattle.milenage.specs.Home.{challenge_of, challenged, resync_of, resynced};

use crate::amf::{link_record_of, newest_link, newest_subscriber, record_of};
use crate::changes::{Before, Changes};
use crate::{Amf, Configured, Link, Record};
use milenage::{Home, HomeRefusal, Vector};
use nas_base::{Memory, Supi};
use nas_elements::{Guti, Stmsi};
use std::alloc::Global;
use std::marker::Model;

/// What steps leave: what was kept before them, which stays as it is until its owner takes the changes over, and what they changed. So
/// want of memory leaves all as before, and a step copies the records alone that it changes. The home network is copied where a
/// challenge starts or an AUTS comes, and in no other step.
#[derive(Drop)]
pub struct Draft<'a> {
    before: Before<'a>,
    changes: Changes,
}

impl<'a> Model for Draft<'a> {
    ghost use Rattle.amf_core.specs.Drafts.{DraftState, drafted};

    ghost Value = { DraftState };

    ghost view = { λ d. drafted d.changes d.before };
}

impl Changes {
    // A record as it is by now.
    fn by_now<'b>(&'b self, kept: &'b Record) -> &'b Record
        ensures { result.now ≡ current is_same_subscriber self.now.subscribers kept.now }
    {
        match newest_subscriber(self.subscribers.as_slice(), kept) {
            Some(changed) => changed,
            None => kept,
        }
    }

    // A record of a link as it is by now.
    fn link_by_now<'b>(&'b self, kept: &'b Link) -> &'b Link
        ensures { result.now ≡ current is_same_link self.now.links kept.now }
    {
        match newest_link(self.links.as_slice(), kept) {
            Some(changed) => changed,
            None => kept,
        }
    }
}

impl<'a> Draft<'a> {
    /// Nothing is changed.
    #[tactic(auto, using(crate::proofs::Drafting::unchanged_stay))]
    pub fn new(alloc: Global, amf: &'a Amf, home: &'a Home) -> Draft<'a>
        ensures { result ≡ record { amf = amf.now; home = home.now; before = record { amf = amf.now; home = home.now } } }
    {
        Draft {
            before: Before { amf, home },
            changes: Changes {
                subscribers: Vec::new(alloc),
                links: Vec::new(alloc),
                tmsi: amf.tmsi,
                home: None,
            },
        }
    }

    /// What the steps changed.
    pub fn changes(self) -> Changes
        ensures { drafted result self.entry.before ≡ self.entry }
    {
        self.changes
    }

    /// What was configured.
    pub(crate) fn config(&self) -> &Configured
        ensures { result.now ≡ self.now.amf.config }
    {
        let amf = self.before.amf;
        &amf.config
    }

    /// The record of a subscriber, by the digits of its SUPI. A change keeps its SUPI, so that of before is looked for.
    #[tactic(auto, using(crate::proofs::Drafting::subscriber_by_now))]
    pub(crate) fn subscriber(&self, supi: &[u8]) -> Option<Record>
        ensures { result ≡ subscriber_in supi.now self.now.amf.subscribers }
    {
        let amf = self.before.amf;
        match record_of(amf.subscribers.as_slice(), supi) {
            Some(kept) => Some(self.changes.by_now(kept).copy()),
            None => None,
        }
    }

    /// The record of the subscriber that a 5G-GUTI is kept for.
    pub(crate) fn keeper(&self, guti: &Guti) -> Option<Record>
        ensures { result ≡ found (keeps_guti guti.now) self.now.amf.subscribers }
    {
        let amf = self.before.amf;
        let changes = &self.changes;
        for record in amf.subscribers.as_slice() {
            let by_now = changes.by_now(record);
            if by_now.kept.has(guti) {
                return Some(by_now.copy());
            }
        }
        None
    }

    /// The record of the subscriber that a 5G-GUTI with this 5G-S-TMSI is kept for.
    pub(crate) fn short_keeper(&self, stmsi: &Stmsi) -> Option<Record>
        ensures { result ≡ found (keeps_stmsi stmsi.now) self.now.amf.subscribers }
    {
        let amf = self.before.amf;
        let changes = &self.changes;
        for record in amf.subscribers.as_slice() {
            let by_now = changes.by_now(record);
            if by_now.kept.has_short(stmsi) {
                return Some(by_now.copy());
            }
        }
        None
    }

    /// A record takes the place of that of its subscriber.
    #[tactic(auto, using(crate::proofs::Drafting::subscriber_put))]
    pub(crate) fn put(&mut self, subscriber: Record) -> Result<(), Memory>
        ensures { OnOk result (self.new ≡ record self.old { amf = with_subscriber subscriber self.old.amf }) }
    {
        match self.changes.subscribers.insert(0, subscriber) {
            Ok(()) => Ok(()),
            Err(_) => Err(Memory),
        }
    }

    /// The record of a link.
    #[tactic(auto, unfolding(nas_base::specs::Branches::per))]
    pub(crate) fn link(&self, number: u16) -> Link
        ensures { result ≡ link_in number self.now.amf.links }
    {
        match self.found_link(number) {
            Some(link) => link.copy(),
            None => Link::unused(number),
        }
    }

    // The same, if there is one.
    #[tactic(auto, using(crate::proofs::Drafting::link_by_now))]
    fn found_link(&self, number: u16) -> Option<&Link>
        ensures { option_map (λ l. l.now) result ≡ found (has_number number) self.now.amf.links }
    {
        let amf = self.before.amf;
        match link_record_of(amf.links.as_slice(), number) {
            Some(kept) => Some(self.changes.link_by_now(kept)),
            None => None,
        }
    }

    /// A record takes the place of that of its link.
    #[tactic(auto, using(crate::proofs::Drafting::link_put))]
    pub(crate) fn put_link(&mut self, link: Link) -> Result<(), Memory>
        ensures { OnOk result (self.new ≡ record self.old { amf = with_link link self.old.amf }) }
    {
        match self.changes.links.insert(0, link) {
            Ok(()) => Ok(()),
            Err(_) => Err(Memory),
        }
    }

    /// The next 5G-TMSI, which is 2^32 where none is left.
    pub(crate) fn tmsi(&self) -> u64
        ensures { result ≡ self.now.amf.tmsi }
    {
        self.changes.tmsi
    }

    /// The next 5G-TMSI is taken.
    pub(crate) fn take_tmsi(&mut self)
        requires { self.old.amf.tmsi < 2 ^ 32 }
        ensures { self.new ≡ record self.old { amf = with_next_tmsi self.old.amf } }
    {
        self.changes.tmsi += 1;
    }

    // An equal home network as it is by now.
    fn copied_home(&self, alloc: Global) -> Result<Home, Memory>
        ensures { IfOk result (λ home. home ≡ self.now.home) }
    {
        match &self.changes.home {
            Some(home) => home.copy(alloc),
            None => self.before.home.copy(alloc),
        }
    }

    /// A challenge of a subscriber.
    #[tactic(auto, using(crate::proofs::Sqns::vector_fits))]
    pub(crate) fn challenge(
        &mut self,
        alloc: Global,
        supi: &Supi,
        rand: &[u8; 16],
    ) -> Result<Result<Vector, HomeRefusal>, Memory>
        ensures value { IfOk result (λ answer. (answer ≡ challenge_of supi.now rand.now self.old.home) × (self.new ≡ record self.old { home = challenged supi.now rand.now self.old.home })) }
        ensures limit { IfOk result VectorFits }
    {
        let mut home = self.copied_home(alloc)?;
        let answer = home.challenge(supi, rand);
        self.changes.home = Some(home);
        Ok(answer)
    }

    /// Whether an AUTS is right. It brings SQN_HE up to SQN_MS then.
    pub(crate) fn resync(
        &mut self,
        alloc: Global,
        supi: &Supi,
        rand: &[u8; 16],
        auts: &[u8; 14],
    ) -> Result<bool, Memory>
        ensures right { IfOk result (λ right. right ≡ is_right (resync_of supi.now rand.now auts.now self.old.home)) }
        ensures home { IfOk result (λ right. self.new ≡ (if right then record self.old { home = resynced supi.now rand.now auts.now self.old.home } else self.old)) }
    {
        let mut home = self.copied_home(alloc)?;
        if home.resync(supi, rand, auts).is_err() {
            return Ok(false);
        }
        self.changes.home = Some(home);
        Ok(true)
    }
}
