//! Frames: messages with their MAC, ciphered or not (TS 33.501 clause 6.4).
ghost use Rattle.std.specs.Prelude.{◌≡◌, ◌≤◌, ◌+◌, [], ◌++◌, length};
ghost use Rattle.nas_security.specs.Frame.{as_sent, covered, frame, is_ciphered};
ghost use Rattle.nas_security.specs.Protecting.{Protects};

use crate::counts::{COUNTS, next_of};
use crate::{Context, accept};
use aes_cmac::{nea2, nia2};
use nas_base::{Count, Dir, Writer};

/// The extended protocol discriminator of 5GS mobility management (TS 24.007 clause 11.2.3.1A).
pub const PROTOCOL: u8 = 0x7e;

/// No count is left in this direction: the next one would be `next`, 2^24.
#[derive(Clone, Copy, Debug, PartialEq, Eq)]
pub struct Spent {
    pub next: u32,
}

/// Writes the frame of a plain message of at most 4,089 octets under the security header type 1 to 4, and takes the next
/// count for it.
///
/// # Errors
///
/// `Spent` exactly where no count is left; nothing then changes.
pub fn protect(
    context: &mut Context,
    dir: Dir,
    header: u8,
    plain: &[u8],
    out: &mut Writer,
) -> Result<Count, Spent>
    requires header { (1 ≤ header) × (header ≤ 4) }
    requires size { length plain.now ≤ 4089 }
    requires empty { out.old ≡ [] }
    ensures { Protects context.old dir header plain.now context.new out.new result }
{
    let next = next_of(context, dir);
    if next == COUNTS {
        return Err(Spent { next });
    }
    let count = Count(next);
    write_frame(context, dir, count, header, plain, out);
    accept(context, dir, count);
    Ok(count)
}

// Writes the frame. The message is ciphered on the stack, since what a writer holds isn't changed any more.
#[tactic(auto, unfolding(crate::specs::Frame::frame))]
fn write_frame(
    context: &Context,
    dir: Dir,
    count: Count,
    header: u8,
    plain: &[u8],
    out: &mut Writer,
)
    requires size { length plain.now ≤ 4089 }
    requires empty { out.old ≡ [] }
    ensures { out.new ≡ frame context.now dir count header plain.now }
{
    let mut room = [0; 4096];
    let octets = &mut room[..1 + plain.len()];
    cover(context, dir, count, header, plain, octets);
    let mac = nia2(&context.keys.int, count, dir, octets);
    append(out, &[PROTOCOL, header]);
    append(out, &mac);
    append(out, octets);
}

// The sequence number, and the message as it is sent.
fn cover(context: &Context, dir: Dir, count: Count, header: u8, plain: &[u8], octets: &mut [u8])
    requires { length octets.old ≡ 1 + length plain.now }
    ensures { octets.new ≡ covered context.now dir count header plain.now }
{
    let (front, message) = octets.split_at_mut(1);
    front[0] = (count.0 % 256) as u8;
    message.copy_from_slice(plain);
    cipher(context, dir, count, header, message);
}

/// Ciphers a message in place where its header type and the context say so, or deciphers it, which is the same.
#[tactic(auto, unfolding(crate::specs::Frame::as_sent))]
pub fn cipher(context: &Context, dir: Dir, count: Count, header: u8, message: &mut [u8])
    ensures { message.new ≡ as_sent context.now dir count header message.old }
{
    if is_ciphered(context, header) {
        nea2(&context.keys.enc, count, dir, message);
    }
}

// Whether a message under this header type is ciphered.
fn is_ciphered(context: &Context, header: u8) -> bool
    ensures { result ≡ is_ciphered context.now header }
{
    (header == 2 || header == 4) && context.algs.nea == 2
}

/// Writes octets that fit.
pub fn append(out: &mut Writer, octets: &[u8])
    requires { length out.old + length octets.now ≤ 4096 }
    ensures { out.new ≡ out.old ++ octets.now }
{
    let _fits = out.put(octets);
}
