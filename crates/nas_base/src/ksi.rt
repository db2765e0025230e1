//! The key set identifier.

use std::marker::Model;

/// The NAS key set identifier ngKSI of a native security context, 0 to 6, or 7 where no key is available
/// (TS 24.501 clause 9.11.3.32).
#[derive(Clone, Copy, Debug, PartialEq, Eq)]
pub struct Ksi(pub u8);

impl Model for Ksi {
    ghost use Rattle.std.specs.Prelude.{ℕ, ◌<◌};

    ghost Value = { ℕ };

    ghost view = { λ k. k.0 };

    ghost invariant = { λ k. k.0 < 8 };

    ghost inverse = { λ n. record { 0 = n } };
}
