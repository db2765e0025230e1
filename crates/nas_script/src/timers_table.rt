//! The table of the timers.
ghost use Rattle.std.specs.Prelude.{◌≡◌, true, IfSome};
ghost use Rattle.toml.specs.View.{view};
ghost use Rattle.nas_timers.specs.Durations.{is_duration};
ghost use Rattle.nas_script.specs.Reads.{Reads};
ghost use Rattle.nas_script.specs.TimersTable.{duration_at, durations_in, timers_in};

use crate::config::needed;
use crate::document::between;
use crate::{ConfigRefusal, Key};
use nas_base::Moment;
use nas_timers::Durations;
use toml::Value;

const LONGEST: u32 = 86_400_000;

/// The durations that the document asks for: the standard ones but for those that the table `timers` has.
#[tactic(auto, unfolding(crate::specs::TimersTable::durations_in))]
pub fn read_durations(document: &Value) -> Result<Durations, ConfigRefusal>
    ensures { Reads (λ d. d) result (durations_in (view document.now)) }
{
    match document.get("timers") {
        None => Ok(Durations::standard()),
        Some(table) => {
            if table.is_table() {
                read_timers(table)
            } else {
                Err(ConfigRefusal::ConfigWrong { key: Key::Timers })
            }
        }
    }
}

// The durations of a table.
#[tactic(auto, unfolding(crate::specs::TimersTable::timers_in))]
fn read_timers(table: &Value) -> Result<Durations, ConfigRefusal>
    ensures { Reads (λ d. d) result (timers_in (view table.now)) }
{
    let t3510 = needed(Key::T3510, duration_of(15_000, "t3510", table))?;
    let t3516 = needed(Key::T3516, duration_of(30_000, "t3516", table))?;
    let t3517 = needed(Key::T3517, duration_of(15_000, "t3517", table))?;
    let t3521 = needed(Key::T3521, duration_of(15_000, "t3521", table))?;
    let t3522 = needed(Key::T3522, duration_of(6_000, "t3522", table))?;
    let t3550 = needed(Key::T3550, duration_of(6_000, "t3550", table))?;
    let t3555 = needed(Key::T3555, duration_of(6_000, "t3555", table))?;
    let t3560 = needed(Key::T3560, duration_of(6_000, "t3560", table))?;
    let t3580 = needed(Key::T3580, duration_of(16_000, "t3580", table))?;
    let t3581 = needed(Key::T3581, duration_of(16_000, "t3581", table))?;
    let t3582 = needed(Key::T3582, duration_of(16_000, "t3582", table))?;
    let t3591 = needed(Key::T3591, duration_of(16_000, "t3591", table))?;
    let t3592 = needed(Key::T3592, duration_of(16_000, "t3592", table))?;
    Ok(Durations {
        t3510,
        t3516,
        t3517,
        t3521,
        t3522,
        t3550,
        t3555,
        t3560,
        t3580,
        t3581,
        t3582,
        t3591,
        t3592,
    })
}

// The duration under a key: 1 to 86,400,000 milliseconds, or the standard one where the key isn't there.
#[tactic(auto, unfolding(crate::specs::TimersTable::duration_at))]
fn duration_of(standard: u32, key: &str, table: &Value) -> Option<Moment>
    requires { is_duration standard ≡ true }
    ensures value { result ≡ duration_at standard key.now (view table.now) }
    ensures bounds { IfSome result (λ ms. is_duration ms ≡ true) }
{
    match table.get(key) {
        None => Some(Moment(standard as u64)),
        Some(found) => {
            let ms = between(1, LONGEST, found.as_integer()?)?;
            Some(Moment(ms as u64))
        }
    }
}
