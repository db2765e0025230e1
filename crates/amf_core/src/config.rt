//! What an AMF is made with.
ghost use Rattle.std.specs.Prelude.{◌≡◌, [], ◌∷◌, IfOk};

use nas_base::{Memory, Plmn, Supi};
use nas_elements::{Nssai, Timer3};
use nas_timers::Durations;
use std::alloc::Global;
use std::marker::Model;

/// A subscriber: the SUPI, and the slices that are subscribed.
#[derive(Drop)]
pub struct AmfSubscriber {
    pub supi: Supi,
    pub slices: Nssai,
}

/// The subscribers, at most 64, no SUPI twice. There may be none.
#[derive(Drop)]
pub struct AmfSubscribers {
    pub items: Vec<AmfSubscriber>,
}

impl Model for AmfSubscribers {
    ghost use Rattle.std.specs.Prelude.{List, ◌≡◌, true};
    ghost use Rattle.amf_core.specs.Config.{are_subscribers};
    ghost use Rattle.amf_core.specs.declared.config.AmfSubscriber.{AmfSubscriber};

    ghost Value = { List AmfSubscriber };

    ghost view = { λ s. s.items.items };

    ghost invariant = { λ s. are_subscribers s.items.items ≡ true };
}

impl AmfSubscribers {
    /// None.
    pub fn new(alloc: Global) -> AmfSubscribers
        ensures { result ≡ [] }
    {
        AmfSubscribers {
            items: Vec::new(alloc),
        }
    }

    /// One alone.
    ///
    /// # Errors
    ///
    /// `Memory`.
    pub fn from_one(alloc: Global, subscriber: AmfSubscriber) -> Result<AmfSubscribers, Memory>
        ensures { IfOk result (λ subscribers. subscribers ≡ subscriber ∷ []) }
    {
        let mut items = Vec::new(alloc);
        match items.push(subscriber) {
            Ok(()) => Ok(AmfSubscribers { items }),
            Err(_) => Err(Memory),
        }
    }
}

/// An AMF: its network, its region, set and pointer as 5G-GUTIs have them, the 5G-TMSI that is assigned first, 1 at least, the ciphering
/// that is preferred, 0 or 2, its tracking area, T3512 as handsets are told it, how long timers run, and its subscribers, whose SUPIs
/// begin with the digits of the network (TS 23.003 clause 2.10.1, TS 24.501 clause 10).
#[derive(Drop)]
pub struct AmfConfig {
    pub plmn: Plmn,
    pub region: u8,
    pub set_pointer: u16,
    pub tmsi: u32,
    pub nea: u8,
    pub tac: [u8; 3],
    pub t3512: Timer3,
    pub durations: Durations,
    pub subscribers: AmfSubscribers,
}

impl Model for AmfConfig {
    ghost use Rattle.amf_core.specs.Config.{AmfBeginnings, IsAmf};

    ghost Value = { AmfBeginnings };

    ghost view = { λ c. record { values = record { plmn = c.plmn; region = c.region; set_pointer = c.set_pointer; nea = c.nea; tac = c.tac; t3512 = c.t3512; durations = c.durations }; tmsi = c.tmsi; subscribers = c.subscribers } };

    ghost invariant = { λ c. IsAmf (record { values = record { plmn = c.plmn; region = c.region; set_pointer = c.set_pointer; nea = c.nea; tac = c.tac; t3512 = c.t3512; durations = c.durations }; tmsi = c.tmsi; subscribers = c.subscribers }) };
}

/// What stays as it was configured.
#[derive(Drop)]
pub struct Configured {
    pub plmn: Plmn,
    pub region: u8,
    pub set_pointer: u16,
    pub nea: u8,
    pub tac: [u8; 3],
    pub t3512: Timer3,
    pub durations: Durations,
}

impl Configured {
    /// An equal value.
    pub fn copy(&self) -> Configured
        ensures { result ≡ self.now }
    {
        Configured {
            plmn: self.plmn.copy(),
            region: self.region,
            set_pointer: self.set_pointer,
            nea: self.nea,
            tac: self.tac,
            t3512: self.t3512,
            durations: self.durations,
        }
    }
}

impl AmfConfig {
    /// What of it stays.
    pub(crate) fn values(&self) -> Configured
        ensures { result ≡ self.now.values }
    {
        Configured {
            plmn: self.plmn.copy(),
            region: self.region,
            set_pointer: self.set_pointer,
            nea: self.nea,
            tac: self.tac,
            t3512: self.t3512,
            durations: self.durations,
        }
    }
}
