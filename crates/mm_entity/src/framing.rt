//! How a message becomes octets: spelled, and protected under a context.
ghost use Rattle.std.specs.Prelude.{◌≡◌, ◌≤◌, []};
ghost use Rattle.mm_messages.specs.Messages.{spelling};
ghost use Rattle.mm_entity.specs.Framing.{Frames, IsSpelled};

use mm_messages::{Mm, encode_mm};
use nas_base::{Dir, Supi, Writer};
use nas_security::{Context, Pass, protect};

// Octets of a message at most whose frame has 4,096.
const LONGEST: usize = 4089;

/// Spells a message, and answers whether its frame has 4,096 octets at most. One that is longer isn't sent.
pub fn spelled(message: &Mm, out: &mut Writer) -> bool
    requires { out.old ≡ [] }
    ensures { IsSpelled result out.new (spelling message.now) }
{
    encode_mm(message, out).is_ok() && out.octets().len() <= LONGEST
}

/// Writes the frame of a message of a subscriber under a context, of a security header type of 1 to 4, takes the context's next count
/// for it, and answers what protects it (TS 24.501 clauses 4.4.3.1 and 9.3). None exactly where the frame would have more than 4,096
/// octets or the context has no count left; then the message isn't sent and no count is taken.
pub fn frame_under(
    context: &mut Context,
    dir: Dir,
    header: u8,
    message: &Mm,
    supi: &Supi,
    out: &mut Writer,
) -> Option<Pass>
    requires header { (1 ≤ header) × (header ≤ 4) }
    requires empty { out.old ≡ [] }
    ensures { Frames context.old dir header (spelling message.now) supi.now context.new out.new result }
{
    let mut plain = Writer::new();
    if !spelled(message, &mut plain) {
        return None;
    }
    let challenge = context.challenge;
    match protect(context, dir, header, plain.octets(), out) {
        Ok(count) => Some(Pass {
            supi: supi.copy(),
            challenge,
            count,
        }),
        Err(_) => None,
    }
}
