//! NAS COUNTs (TS 24.501 clause 4.4.3).
ghost use Rattle.std.specs.Prelude.{◌≡◌, ◌≤◌, ◌+◌, ◌^◌};
ghost use Rattle.nas_security.specs.Counts.{estimate, next_count, with_next};

use crate::Context;
use nas_base::{Count, Dir};

/// How many counts a direction has: a count has 24 bits.
pub const COUNTS: u32 = 1 << 24;

/// The next count of a direction, or 2^24 where none is left.
pub fn next_of(context: &Context, dir: Dir) -> u32
    ensures value { result ≡ next_count context.now dir }
    ensures limit { result ≤ 2 ^ 24 }
{
    match dir {
        Dir::Up => context.up,
        Dir::Down => context.down,
    }
}

/// The count of a message that has this sequence number: the least that isn't below the next and has that low octet. It
/// may be above all that there are.
pub fn estimate(next: u32, sequence_number: u8) -> u32
    requires { next ≤ 2 ^ 24 }
    ensures { result ≡ estimate next sequence_number }
{
    next + (u32::from(sequence_number) + 256 - next % 256) % 256
}

/// Takes a count that passed, which is not below the next: the next one is then one more.
pub fn accept(context: &mut Context, dir: Dir, count: Count)
    requires { next_count context.old dir ≤ count }
    ensures { context.new ≡ with_next context.old dir (count + 1) }
{
    match dir {
        Dir::Up => context.up = count.0 + 1,
        Dir::Down => context.down = count.0 + 1,
    }
}
