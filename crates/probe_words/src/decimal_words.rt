//! Numbers in decimal digits, and what they name.
ghost use Rattle.std.specs.Prelude.{◌<◌, ◌^◌, IfOk};

use crate::refusals::Refusal;
use arrayvec::ArrayVec;
use nas_base::{Count, Dir, Plmn, Psi, Supi};

/// A network: its 5 or 6 digits.
pub fn network(word: &str) -> Result<Plmn, Refusal> {
    Plmn::from_digits(digits(word)?.as_slice()).ok_or(Refusal::Unreadable)
}

/// A subscriber: the 15 digits of an IMSI.
pub fn subscriber(word: &str) -> Result<Supi, Refusal> {
    Supi::from_slice(digits(word)?.as_slice()).ok_or(Refusal::Unreadable)
}

// Up to 15 decimal digits.
fn digits(word: &str) -> Result<ArrayVec<u8, 15>, Refusal> {
    let mut digits = ArrayVec::new();
    for byte in word.as_bytes() {
        let digit = digit(*byte)?;
        if digits.try_push(digit).is_err() {
            return Err(Refusal::Unreadable);
        }
    }
    Ok(digits)
}

fn digit(byte: u8) -> Result<u8, Refusal> {
    match byte {
        b'0'..=b'9' => Ok(byte - b'0'),
        _ => Err(Refusal::Unreadable),
    }
}

/// A sequence number, below 2^48.
pub fn number(word: &str) -> Result<u64, Refusal>
    ensures { IfOk result (λ number. number < 2 ^ 48) }
{
    match word.parse::<u64>() {
        Ok(number) if number < 1 << 48 => Ok(number),
        _ => Err(Refusal::Unreadable),
    }
}

/// A number below 2^32.
pub fn quantity(word: &str) -> Result<u32, Refusal> {
    match word.parse::<u32>() {
        Ok(number) => Ok(number),
        Err(_) => Err(Refusal::Unreadable),
    }
}

/// A NAS COUNT, below 2^24.
pub fn count(word: &str) -> Result<Count, Refusal> {
    match word.parse::<u32>() {
        Ok(number) if number < 1 << 24 => Ok(Count(number)),
        _ => Err(Refusal::Unreadable),
    }
}

/// A PDU session: 1 to 15.
pub fn session(word: &str) -> Result<Psi, Refusal> {
    match word.parse::<u8>() {
        Ok(number) => Psi::from_number(number).ok_or(Refusal::Unreadable),
        Err(_) => Err(Refusal::Unreadable),
    }
}

/// A direction: `up` or `down`.
pub fn direction(word: &str) -> Result<Dir, Refusal> {
    match word {
        "up" => Ok(Dir::Up),
        "down" => Ok(Dir::Down),
        _ => Err(Refusal::Unreadable),
    }
}
