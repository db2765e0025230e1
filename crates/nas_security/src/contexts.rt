//! Security contexts (TS 33.501 clause 6.3.2).

use crate::Challenge;
use key_chain::NasKeys;
use nas_base::Ksi;
use nas_elements::Algs;
use std::marker::Model;

/// A 5G NAS security context. Its algorithms are 128-NIA2 and 128-NEA2, or 128-NIA2 alone (5G-EA0).
#[derive(Clone, Copy, PartialEq, Eq)]
pub struct Context {
    /// The challenge that it came of.
    pub challenge: Challenge,
    /// The number that both ends name it by.
    pub ksi: Ksi,
    pub kamf: [u8; 32],
    pub algs: Algs,
    pub keys: NasKeys,
    /// The next count up and the next count down, 0 to 2^24; at 2^24 none is left.
    pub up: u32,
    pub down: u32,
}

impl Model for Context {
    ghost use Rattle.std.specs.Prelude.{◌≤◌, ◌^◌};
    ghost use Rattle.nas_security.specs.Contexts.{AreInUse, SecurityContext};

    ghost Value = { SecurityContext };

    ghost view = { λ c. record { challenge = c.challenge; ksi = c.ksi; kamf = c.kamf; algs = c.algs; keys = c.keys; up = c.up; down = c.down } };

    ghost invariant = { λ c. AreInUse c.algs × (c.up ≤ 2 ^ 24) × (c.down ≤ 2 ^ 24) };

    ghost inverse = { λ c. record { challenge = c.challenge; ksi = c.ksi; kamf = c.kamf; algs = c.algs; keys = c.keys; up = c.up; down = c.down } };
}
