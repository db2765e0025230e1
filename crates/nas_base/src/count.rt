//! The NAS COUNT, and the direction that it counts in.

use std::marker::Model;

/// A NAS COUNT: 24 bits, of which the low 8 are the sequence number that a message carries (TS 24.501 clause 4.4.3.1).
#[derive(Clone, Copy, Debug, PartialEq, Eq)]
pub struct Count(pub u32);

impl Model for Count {
    ghost use Rattle.std.specs.Prelude.{ℕ, ◌<◌, ◌^◌};

    ghost Value = { ℕ };

    ghost view = { λ c. c.0 };

    ghost invariant = { λ c. c.0 < 2 ^ 24 };

    ghost inverse = { λ n. record { 0 = n } };
}

/// The direction of a message (TS 33.501 Annex D).
#[derive(Clone, Copy, Debug, PartialEq, Eq)]
pub enum Dir {
    /// From the handset to the network.
    Up,
    /// From the network to the handset.
    Down,
}
