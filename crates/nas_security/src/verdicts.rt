//! The check of octets that came in (TS 24.501 clause 4.4.4).
ghost use Rattle.std.specs.Prelude.{◌≡◌, ◌≤◌, [], length};
ghost use Rattle.nas_security.specs.Frame.{as_sent};
ghost use Rattle.nas_security.specs.Passing.{estimated, judged};

use crate::Context;
use crate::counts::{COUNTS, estimate, next_of};
use crate::frames::{PROTOCOL, append, cipher};
use aes_cmac::nia2;
use nas_base::{Count, Dir, Writer};

/// What a check makes of octets.
#[derive(Clone, Copy, Debug, PartialEq, Eq)]
pub enum Verdict {
    /// The header type is 0: the octets are a plain message, if any.
    Plain,
    /// The octets have no frame's form from this place on, counted from 0.
    Malformed { at: usize },
    /// The count would be 2^24 or more, where `next` is the next one.
    Spent { next: u32 },
    /// The MAC isn't the one of this context and count.
    Failed { want: [u8; 4], got: [u8; 4] },
    /// The octets are a frame of this count and header type.
    Passed { count: Count, header: u8 },
}

/// The verdict on octets that came in this direction. Of those that pass, the plain message is written; the context's counts
/// stay until `accept`.
///
/// In this order: `Plain` where octet 1 is 7E and the header type 0; `Malformed` where fewer than 8 octets are there, octet 1
/// isn't 7E, the header type is above 4, or more than 4,096 octets are there; `Spent` where no count is left for the sequence
/// number; `Failed` where the MACs differ. The place of `Malformed` is 0 for octet 1, 1 for the header type, and the number
/// of octets that are there and belong to a frame for the other two.
#[tactic(auto, unfolding(crate::specs::Passing::judged))]
pub fn unprotect(context: &Context, dir: Dir, octets: &[u8], out: &mut Writer) -> Verdict
    requires { out.old ≡ [] }
    ensures { (result, out.new) ≡ judged context.now dir octets.now }
{
    if octets.is_empty() || octets[0] != PROTOCOL {
        return Verdict::Malformed { at: 0 };
    }
    if octets.len() == 1 {
        return Verdict::Malformed { at: 1 };
    }
    let header = octets[1] % 16;
    if header == 0 {
        return Verdict::Plain;
    }
    if header > 4 {
        return Verdict::Malformed { at: 1 };
    }
    if octets.len() < 8 {
        return Verdict::Malformed { at: octets.len() };
    }
    if octets.len() > 4096 {
        return Verdict::Malformed { at: 4096 };
    }
    check(context, dir, octets, out)
}

// The verdict on octets of a frame's form.
#[tactic(auto, unfolding(crate::specs::Passing::estimated))]
fn check(context: &Context, dir: Dir, octets: &[u8], out: &mut Writer) -> Verdict
    requires size { (8 ≤ length octets.now) × (length octets.now ≤ 4096) }
    requires empty { out.old ≡ [] }
    ensures { (result, out.new) ≡ estimated context.now dir octets.now }
{
    let next = next_of(context, dir);
    let number = estimate(next, octets[6]);
    if number >= COUNTS {
        return Verdict::Spent { next };
    }
    let count = Count(number);
    let want = nia2(&context.keys.int, count, dir, &octets[6..]);
    let got = [octets[2], octets[3], octets[4], octets[5]];
    if want != got {
        return Verdict::Failed { want, got };
    }
    let header = octets[1] % 16;
    uncover(context, dir, count, header, &octets[7..], out);
    Verdict::Passed { count, header }
}

// Writes the plain message of a message that was sent.
fn uncover(context: &Context, dir: Dir, count: Count, header: u8, sent: &[u8], out: &mut Writer)
    requires size { length sent.now ≤ 4096 }
    requires empty { out.old ≡ [] }
    ensures { out.new ≡ as_sent context.now dir count header sent.now }
{
    let mut room = [0; 4096];
    let message = &mut room[..sent.len()];
    message.copy_from_slice(sent);
    cipher(context, dir, count, header, message);
    append(out, message);
}
