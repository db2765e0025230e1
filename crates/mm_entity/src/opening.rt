//! Octets that pass the check of a context.
ghost use Rattle.std.specs.Prelude.{◌≡◌, [], option_map};
ghost use Rattle.mm_entity.specs.Opening.{opened, with_count};

use nas_base::{Count, Dir, Writer};
use nas_security::{Context, Verdict, unprotect};

/// The count of octets that pass the check of a context in a direction, whose plain message is then written (TS 24.501 clause 4.4.3.3);
/// None exactly where they don't pass.
#[tactic(auto, unfolding(crate::specs::Opening::opened))]
pub fn open(context: &Context, dir: Dir, octets: &[u8], out: &mut Writer) -> Option<Count>
    requires { out.old ≡ [] }
    ensures { option_map (λ count. record { count = count; message = out.new }) result ≡ opened context.now dir octets.now }
{
    match unprotect(context, dir, octets, out) {
        Verdict::Passed { count, header: _ } => Some(count),
        Verdict::Plain
        | Verdict::Malformed { at: _ }
        | Verdict::Spent { next: _ }
        | Verdict::Failed { want: _, got: _ } => None,
    }
}

/// The context once this count of a direction is taken.
pub fn counted(context: Context, dir: Dir, count: Count) -> Context
    ensures { result ≡ with_count context dir count }
{
    let next = count.0 + 1;
    match dir {
        Dir::Up => Context {
            up: next,
            ..context
        },
        Dir::Down => Context {
            down: next,
            ..context
        },
    }
}
