//! What a handset is made with.

use nas_base::{Plmn, Supi};
use nas_elements::Capability;
use nas_timers::Durations;
use std::marker::Model;

/// A handset: its SUPI, which begins with the digits of its network, the keys of its card, SQN_MS below 2^48, what security it is
/// capable of, and how long its timers run.
#[derive(Drop)]
pub struct HandsetConfig {
    pub supi: Supi,
    pub plmn: Plmn,
    pub k: [u8; 16],
    pub opc: [u8; 16],
    pub sqn: u64,
    pub capability: Capability,
    pub durations: Durations,
}

impl Model for HandsetConfig {
    ghost use Rattle.ue_mm.specs.Config.{HandsetValues, IsHandset};

    ghost Value = { HandsetValues };

    ghost view = { λ h. record { supi = h.supi; plmn = h.plmn; k = h.k; opc = h.opc; sqn = h.sqn; capability = h.capability; durations = h.durations } };

    ghost invariant = { λ h. IsHandset h.supi h.plmn h.sqn };
}

impl HandsetConfig {
    ghost use Rattle.std.specs.Prelude.{◌≡◌};

    /// An equal value.
    pub fn copy(&self) -> HandsetConfig
        ensures { result ≡ self.now }
    {
        HandsetConfig {
            supi: self.supi.copy(),
            plmn: self.plmn.copy(),
            k: self.k,
            opc: self.opc,
            sqn: self.sqn,
            capability: self.capability.copy(),
            durations: self.durations,
        }
    }
}
