//! What an SMF is made with.
ghost use Rattle.std.specs.Prelude.{◌≡◌, IfOk};

use nas_base::{Memory, Supi};
use nas_elements::{Ambr, Dnns, Nssai};
use nas_pools::{DnnKinds, Pool6};
use nas_timers::Durations;
use std::alloc::Global;
use std::marker::Model;

/// A subscriber: the SUPI, and the data networks and slices that are subscribed.
#[derive(Drop)]
pub struct SmfSubscriber {
    pub supi: Supi,
    pub dnns: Dnns,
    pub slices: Nssai,
}

/// The subscribers, 1 to 64, no SUPI twice.
#[derive(Drop)]
pub struct SmfSubscribers {
    pub items: Vec<SmfSubscriber>,
}

impl Model for SmfSubscribers {
    ghost use Rattle.std.specs.Prelude.{List, ◌≡◌, true};
    ghost use Rattle.smf_core.specs.declared.config.SmfSubscriber.{SmfSubscriber};

    ghost Value = { List SmfSubscriber };

    ghost use Rattle.smf_core.specs.Config.{are_subscribers};

    ghost view = { λ s. s.items.items };

    ghost invariant = { λ s. are_subscribers s.items.items ≡ true };
}

/// What stays as it was configured: the session AMBR, how long timers run, and which addresses data networks have.
#[derive(Drop)]
pub struct Configured {
    pub ambr: Ambr,
    pub durations: Durations,
    pub kinds: DnnKinds,
}

impl Configured {
    /// An equal value, or `Memory`.
    pub fn copy(&self, alloc: Global) -> Result<Configured, Memory>
        ensures { IfOk result (λ copy. copy ≡ self.now) }
    {
        Ok(Configured {
            ambr: self.ambr,
            durations: self.durations,
            kinds: self.kinds.copy(alloc)?,
        })
    }
}

/// An SMF: its pool of 1 to 65,536 IPv4 addresses, by the first, of which the last is 255.255.255.255 at most; its pool
/// of interface identifiers of IPv6, if it has one; the session AMBR of new sessions; how long timers run; which
/// addresses data networks have, IPv4 alone where there is no pool of interface identifiers; and its subscribers (TS
/// 23.501 clause 5.8.2.2, TS 24.501 clause 10).
#[derive(Drop)]
pub struct SmfConfig {
    pub pool: [u8; 4],
    pub pool_size: u32,
    pub pool6: Option<Pool6>,
    pub ambr: Ambr,
    pub durations: Durations,
    pub kinds: DnnKinds,
    pub subscribers: SmfSubscribers,
}

impl Model for SmfConfig {
    ghost use Rattle.smf_core.specs.Config.{IsSmf, SmfBeginnings};

    ghost Value = { SmfBeginnings };

    ghost view = { λ c. record { values = record { ambr = c.ambr; durations = c.durations; kinds = c.kinds }; pool = c.pool; pool_size = c.pool_size; pool6 = c.pool6; subscribers = c.subscribers } };

    ghost invariant = { λ c. IsSmf (record { values = record { ambr = c.ambr; durations = c.durations; kinds = c.kinds }; pool = c.pool; pool_size = c.pool_size; pool6 = c.pool6; subscribers = c.subscribers }) };
}

impl SmfConfig {
    // What of it stays.
    pub(crate) fn values(&self, alloc: Global) -> Result<Configured, Memory>
        ensures { IfOk result (λ values. values ≡ self.now.values) }
    {
        Ok(Configured {
            ambr: self.ambr,
            durations: self.durations,
            kinds: self.kinds.copy(alloc)?,
        })
    }
}
