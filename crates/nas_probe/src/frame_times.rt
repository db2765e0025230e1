//! Frames, made and checked often, for a clock outside.

use crate::frame_calls::context_of;
use nas_base::{Dir, Writer};
use nas_security::{Context, Verdict, protect, unprotect};
use probe_words::{Refusal, sum_of};

// The longest message of a frame.
const LONGEST: usize = 4089;

/// Protects a message of so many octets so often.
pub fn protect_often(length: u32, times: u32) -> Result<u64, Refusal> {
    let room = [0x5a; LONGEST];
    let Some(plain) = room.get(..length as usize) else {
        return Err(Refusal::Unreadable);
    };
    let mut context = new_context();
    let mut sum = 0u64;
    for _ in 0..times {
        let mut out = Writer::new();
        match protect(&mut context, Dir::Up, 2, plain, &mut out) {
            Ok(_) => sum = sum.wrapping_add(sum_of(out.octets())),
            Err(_) => context = new_context(),
        }
    }
    Ok(sum)
}

/// Checks and deciphers the frame of a message of so many octets so often.
pub fn unprotect_often(length: u32, times: u32) -> Result<u64, Refusal> {
    let room = [0x5a; LONGEST];
    let Some(plain) = room.get(..length as usize) else {
        return Err(Refusal::Unreadable);
    };
    let context = new_context();
    let mut sender = new_context();
    let mut frame = Writer::new();
    let _ = protect(&mut sender, Dir::Up, 2, plain, &mut frame);
    let mut sum = 0u64;
    for _ in 0..times {
        let more = sum_unprotected(&context, frame.octets());
        sum = sum.wrapping_add(more);
    }
    Ok(sum)
}

// Checks and deciphers a frame: a sum of what is in it.
fn sum_unprotected(context: &Context, frame: &[u8]) -> u64 {
    let mut out = Writer::new();
    match unprotect(context, Dir::Up, frame, &mut out) {
        Verdict::Passed {
            count: _,
            header: _,
        } => sum_of(out.octets()),
        _ => 0,
    }
}

// A context whose first count is next.
fn new_context() -> Context {
    context_of(&[7; 32], 2, 0)
}
