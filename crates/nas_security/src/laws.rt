//! What holds of every context and of all octets. These functions do nothing: their contracts are the laws.
ghost use Rattle.nas_security.specs.Counts.{IsLeast, estimate};
ghost use Rattle.nas_security.specs.Laws.{AreJudged, HaveOneMessage, IsAcceptedOnce, IsPassedWherePassing, ProtectedPasses};

use crate::Context;
use nas_base::{Count, Dir};

/// The count that a sequence number is taken for is the least that isn't below the next and has that low octet.
pub fn estimate_is_least(next: u32, sequence_number: u8)
    ensures { IsLeast next sequence_number (estimate next sequence_number) }
{}

/// `unprotect` answers `Passed` exactly where something passes: where a plain message is there whose frame these octets are,
/// at the count that the sequence number is taken for. It then answers that count and header type, and writes that message.
pub fn passed_where_passing(context: &Context, dir: Dir, octets: &[u8])
    ensures { IsPassedWherePassing context.now dir octets.now }
{}

/// Where `unprotect` answers `Plain`, `Malformed`, `Spent` and `Failed`, with its place, next count and MACs: for each of them the
/// octets that it comes on, and no others.
pub fn verdicts_have_causes(context: &Context, dir: Dir, octets: &[u8])
    ensures { AreJudged context.now dir octets.now }
{}

/// What `protect` wrote at a count, `unprotect` answers to with `Passed`, that count and header type, and that message, under a
/// context of the same keys and algorithms whose next count is at most that one, and less than 256 below it.
pub fn protected_passes(
    sender: &Context,
    receiver: &Context,
    dir: Dir,
    count: Count,
    header: u8,
    plain: &[u8],
)
    ensures { ProtectedPasses sender.now receiver.now dir count header plain.now }
{}

/// After `accept` the same count isn't estimated again, and all that passes has a greater one.
pub fn accepted_once(context: &Context, dir: Dir, count: Count)
    ensures { IsAcceptedOnce context.now dir count }
{}

/// Equal octets that pass at one count, under contexts of the same keys and algorithms, have one message.
pub fn one_message(one: &Context, other: &Context, dir: Dir, octets: &[u8], count: Count)
    ensures { HaveOneMessage one.now other.now dir octets.now count }
{}
