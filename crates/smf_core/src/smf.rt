//! The SMF: what it keeps.
ghost use Rattle.std.specs.Prelude.{◌≡◌, map, option_map, IfOk};
ghost use Rattle.std.specs.Str.{bytes_eq};
ghost use Rattle.smf_core.specs.Sessions.{AreSessions};
ghost use Rattle.smf_core.specs.State.{first, is_subscriber, session_of, status_of, subscriber_in, unused, with_cell};

use crate::cell::Cell;
use crate::config::{Configured, SmfConfig, SmfSubscriber};
use crate::net_session::NetSession;
use crate::subscriber::Subscriber;
use nas_base::{Memory, Psi, Supi};
use nas_elements::Status;
use nas_pools::Pools;
use std::alloc::Global;
use std::marker::Model;

/// An SMF: what was configured, its addresses, and what it keeps of its subscribers. A look-up walks over at most 64
/// SUPIs. No address is that of two sessions, and an address is taken exactly while a session has it.
#[derive(Drop)]
pub struct Smf {
    pub(crate) config: Configured,
    pub(crate) pools: Pools,
    pub(crate) subscribers: Vec<Subscriber>,
}

impl Model for Smf {
    ghost use Rattle.smf_core.specs.Sessions.{AreSessions};
    ghost use Rattle.smf_core.specs.State.{SmfState};

    ghost Value = { SmfState };

    ghost view = { λ s. record { config = s.config; pools = s.pools; subscribers = s.subscribers.items } };

    ghost invariant = { λ s. AreSessions (record { config = s.config; pools = s.pools; subscribers = s.subscribers.items }) };
}

impl Smf {
    /// An SMF that was just made: there is no session, and all addresses are free.
    ///
    /// # Errors
    ///
    /// `Memory`.
    pub fn new(alloc: Global, config: &SmfConfig) -> Result<Smf, Memory>
        ensures { IfOk result (λ smf. smf ≡ first config.now) }
    {
        let pools = Pools::new(alloc, config.pool, config.pool_size, config.pool6)?;
        pools.stand();
        let subscribers = subscribers_of(alloc, config.subscribers.items.as_slice())?;
        Ok(Smf {
            config: config.values(alloc)?,
            pools,
            subscribers,
        })
    }

    /// An equal value.
    ///
    /// # Errors
    ///
    /// `Memory`.
    pub fn copy(&self, alloc: Global) -> Result<Smf, Memory>
        ensures { IfOk result (λ copy. copy ≡ self.now) }
    {
        let pools = self.pools.copy(alloc)?;
        let subscribers = copied_subscribers(alloc, self.subscribers.as_slice())?;
        Ok(Smf {
            config: self.config.copy(alloc)?,
            pools,
            subscribers,
        })
    }

    /// The session of a subscriber, or None exactly where there is no such session.
    #[tactic(auto, unfolding(crate::specs::State::session_of, crate::specs::State::cell_of))]
    pub fn session(&self, supi: &Supi, psi: Psi) -> Option<NetSession>
        ensures { result ≡ session_of supi.now psi self.now }
    {
        let subscriber = self.subscriber(supi)?;
        let held = subscriber.cells.at(psi).held.as_ref()?;
        Some(NetSession::of(psi, held))
    }

    /// Which sessions a subscriber has, in any state.
    #[tactic(auto, unfolding(crate::specs::State::status_of), using(crate::proofs::StatusLaws::told_held, crate::proofs::StatusLaws::told_vacant, crate::proofs::StatusLaws::seen_where_held))]
    pub fn status(&self, supi: &Supi) -> Status
        ensures { result ≡ status_of supi.now self.now }
    {
        let mut status = Status::empty();
        for n in 1..16 {
            let psi = Psi(n);
            if self.session(supi, psi).is_some() {
                status.insert(psi);
            }
        }
        status
    }

    /// Whether this is one of its subscribers.
    #[tactic(auto, unfolding(crate::specs::State::is_subscriber))]
    pub fn has(&self, supi: &Supi) -> bool
        ensures { result ≡ is_subscriber supi.now self.now }
    {
        self.subscriber(supi).is_some()
    }

    // The record of a SUPI.
    pub(crate) fn subscriber(&self, supi: &Supi) -> Option<&Subscriber>
        ensures { option_map (λ s. s.now) result ≡ subscriber_in supi.now self.now.subscribers }
    {
        record_of(self.subscribers.as_slice(), supi)
    }

    /// Says what holds of the sessions of every SMF.
    pub fn stand(&self)
        ensures { AreSessions self.now }
    {
        let _config = &self.config;
    }
}

// The record of a SUPI.
fn record_of<'a>(subscribers: &'a [Subscriber], supi: &Supi) -> Option<&'a Subscriber>
    ensures { option_map (λ s. s.now) result ≡ subscriber_in supi.now subscribers.now }
{
    for subscriber in subscribers {
        if is_of(subscriber, supi) {
            return Some(subscriber);
        }
    }
    None
}

// Whether a record is of this SUPI.
fn is_of(subscriber: &Subscriber, supi: &Supi) -> bool
    ensures { result ≡ bytes_eq subscriber.now.supi supi.now }
{
    subscriber.supi.as_slice() == supi.as_slice()
}

// Another cell takes the place of an identity's of this SUPI.
#[tactic(auto, using(crate::proofs::Places::none_at_first, crate::proofs::Places::none_more, crate::proofs::Places::hit, crate::proofs::Places::miss))]
pub(crate) fn put_in(subscribers: &mut [Subscriber], supi: &Supi, psi: Psi, cell: Cell)
    ensures { subscribers.new ≡ with_cell supi.now psi cell subscribers.old }
{
    for place in 0..subscribers.len() {
        let subscriber = &mut subscribers[place];
        if is_of(subscriber, supi) {
            subscriber.put(psi, cell);
            return;
        }
    }
}

// The records of subscribers of whom nothing came yet.
fn subscribers_of(alloc: Global, configured: &[SmfSubscriber]) -> Result<Vec<Subscriber>, Memory>
    ensures { IfOk result (λ subscribers. subscribers.items ≡ map unused configured.now) }
{
    let mut subscribers = Vec::new(alloc);
    for subscriber in configured {
        let subscriber = Subscriber::unused(alloc, subscriber)?;
        if subscribers.push(subscriber).is_err() {
            return Err(Memory);
        }
    }
    Ok(subscribers)
}

// Equal records of subscribers.
fn copied_subscribers(alloc: Global, from: &[Subscriber]) -> Result<Vec<Subscriber>, Memory>
    ensures { IfOk result (λ subscribers. subscribers.items ≡ from.now) }
{
    let mut subscribers = Vec::new(alloc);
    for subscriber in from {
        let copy = subscriber.copy(alloc)?;
        if subscribers.push(copy).is_err() {
            return Err(Memory);
        }
    }
    Ok(subscribers)
}
