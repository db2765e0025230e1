//! Points in time.
ghost use Rattle.std.specs.Prelude.{◌≡◌, min};
ghost use Rattle.nas_base.specs.Values.{last_moment};

use std::marker::Model;

const LAST_MOMENT: u64 = 1_000_000_000_000_000;

/// A point in time, in milliseconds since a run began: at most 10^15.
#[derive(Clone, Copy, Debug, PartialEq, Eq, PartialOrd, Ord)]
pub struct Moment(pub u64);

impl Model for Moment {
    ghost use Rattle.std.specs.Prelude.{ℕ, ◌≤◌};
    ghost use Rattle.nas_base.specs.Values.{last_moment};

    ghost Value = { ℕ };

    ghost view = { λ m. m.0 };

    ghost invariant = { λ m. m.0 ≤ last_moment };

    ghost inverse = { λ n. record { 0 = n } };
}

impl Moment {
    /// The moment `ms` milliseconds after the start, or the last moment where that is earlier.
    pub fn at(ms: u64) -> Moment
        ensures { result ≡ min ms last_moment }
    {
        Moment(ms.min(LAST_MOMENT))
    }
}
