//! Durations that are told to a handset.
ghost use Rattle.std.specs.Prelude.{◌≡◌};
ghost use Rattle.nas_base.specs.Writing.{Writes};
ghost use Rattle.nas_elements.specs.Reads.{Reads};
ghost use Rattle.nas_elements.specs.Timer3.{timer3_in, timer3_octets};

use crate::Wrong;
use nas_base::{Full, Writer};
use std::marker::Model;

/// A GPRS timer 3: a `value` of 0 to 31 in a `unit` of 0 to 7. Units 3, 4 and 5 are 2 s, 30 s and 1 min, unit 0 is 10 min,
/// 1, 2 and 6 are 1 h, 10 h and 320 h, and unit 7 says that the timer doesn't run (TS 24.008 clause 10.5.7.4a).
#[derive(Clone, Copy)]
pub struct Timer3 {
    pub unit: u8,
    pub value: u8,
}

impl Model for Timer3 {
    ghost use Rattle.std.specs.Prelude.{◌<◌};
    ghost use Rattle.nas_elements.specs.Timer3.{GprsTimer};

    ghost Value = { GprsTimer };

    ghost view = { λ t. record { unit = t.unit; value = t.value } };

    ghost invariant = { λ t. (t.unit < 8) × (t.value < 32) };

    ghost inverse = { λ t. record { unit = t.unit; value = t.value } };
}

impl Timer3 {
    /// The timer in the octet.
    ///
    /// # Errors
    ///
    /// `Wrong` exactly where there is not one octet.
    #[tactic(auto, using(crate::proofs::OneOctet::wrong_timer3))]
    pub fn read(octets: &[u8]) -> Result<Timer3, Wrong>
        ensures { Reads timer3_in octets.now result }
    {
        match octets {
            [octet] => Ok(Timer3 {
                unit: *octet / 32,
                value: *octet % 32,
            }),
            _ => Err(Wrong {
                at: octets.len().min(1),
            }),
        }
    }

    /// Writes its octet.
    ///
    /// # Errors
    ///
    /// `Full` exactly where it doesn't fit; nothing is then written.
    pub fn write(&self, out: &mut Writer) -> Result<(), Full>
        ensures { Writes (timer3_octets self.now) out.old out.new result }
    {
        out.put(&self.octets())
    }

    /// Its octet.
    pub fn octets(&self) -> [u8; 1]
        ensures { result ≡ timer3_octets self.now }
    {
        [32 * self.unit + self.value]
    }
}
