//! How long timers run.
ghost use Rattle.std.specs.Prelude.{◌≡◌};
ghost use Rattle.nas_timers.specs.Durations.{deadline_after, duration_of, standard_durations};

use crate::TimerId;
use nas_base::Moment;
use std::marker::Model;

/// The durations of the timers (TS 24.501 clauses 10.2 and 10.3), each from 1 to 86,400,000 milliseconds. A timer of a PDU session
/// runs equally long for each.
#[derive(Clone, Copy, Debug, PartialEq, Eq)]
pub struct Durations {
    pub t3510: Moment,
    pub t3516: Moment,
    pub t3517: Moment,
    pub t3521: Moment,
    pub t3522: Moment,
    pub t3550: Moment,
    pub t3555: Moment,
    pub t3560: Moment,
    pub t3580: Moment,
    pub t3581: Moment,
    pub t3582: Moment,
    pub t3591: Moment,
    pub t3592: Moment,
}

impl Model for Durations {
    ghost use Rattle.std.specs.Prelude.{◌≡◌, true};
    ghost use Rattle.nas_timers.specs.Durations.{DurationParts, are_durations};

    ghost Value = { DurationParts };

    ghost view = { λ d. record { t3510 = d.t3510; t3516 = d.t3516; t3517 = d.t3517; t3521 = d.t3521; t3522 = d.t3522; t3550 = d.t3550; t3555 = d.t3555; t3560 = d.t3560; t3580 = d.t3580; t3581 = d.t3581; t3582 = d.t3582; t3591 = d.t3591; t3592 = d.t3592 } };

    ghost invariant = { λ d. are_durations (record { t3510 = d.t3510; t3516 = d.t3516; t3517 = d.t3517; t3521 = d.t3521; t3522 = d.t3522; t3550 = d.t3550; t3555 = d.t3555; t3560 = d.t3560; t3580 = d.t3580; t3581 = d.t3581; t3582 = d.t3582; t3591 = d.t3591; t3592 = d.t3592 }) ≡ true };

    ghost inverse = { λ d. record { t3510 = d.t3510; t3516 = d.t3516; t3517 = d.t3517; t3521 = d.t3521; t3522 = d.t3522; t3550 = d.t3550; t3555 = d.t3555; t3560 = d.t3560; t3580 = d.t3580; t3581 = d.t3581; t3582 = d.t3582; t3591 = d.t3591; t3592 = d.t3592 } };
}

impl Durations {
    /// The durations that hold where no others are given.
    pub fn standard() -> Durations
        ensures { result ≡ standard_durations }
    {
        Durations {
            t3510: Moment(15_000),
            t3516: Moment(30_000),
            t3517: Moment(15_000),
            t3521: Moment(15_000),
            t3522: Moment(6_000),
            t3550: Moment(6_000),
            t3555: Moment(6_000),
            t3560: Moment(6_000),
            t3580: Moment(16_000),
            t3581: Moment(16_000),
            t3582: Moment(16_000),
            t3591: Moment(16_000),
            t3592: Moment(16_000),
        }
    }

    /// How long a timer runs.
    pub fn of(&self, id: &TimerId) -> Moment
        ensures { result ≡ duration_of id.now self.now }
    {
        match id {
            TimerId::T3510 => self.t3510,
            TimerId::T3516 => self.t3516,
            TimerId::T3517 => self.t3517,
            TimerId::T3521 => self.t3521,
            TimerId::T3522 => self.t3522,
            TimerId::T3550 => self.t3550,
            TimerId::T3555 => self.t3555,
            TimerId::T3560 => self.t3560,
            TimerId::T3580(_) => self.t3580,
            TimerId::T3581(_) => self.t3581,
            TimerId::T3582(_) => self.t3582,
            TimerId::T3591(_) => self.t3591,
            TimerId::T3592(_) => self.t3592,
        }
    }
}

/// The deadline of a timer that starts now: the moment `duration` milliseconds later, or the last moment where that is earlier.
pub fn deadline_after(now: Moment, duration: Moment) -> Moment
    ensures { result ≡ deadline_after now duration }
{
    Moment::at(now.0 + duration.0)
}
