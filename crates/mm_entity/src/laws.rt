//! What holds of all octets. These functions do nothing: their contracts are the laws.
ghost use Rattle.mm_entity.specs.Laws.{IsOpenedWherePassing};

use nas_base::Dir;
use nas_security::Context;

/// What an end opens under a context is what passes under it (`nas_security`): octets are opened to the count and the message as whose
/// frame they pass, and to nothing exactly where no message passes as them.
pub fn opened_where_passing(context: &Context, dir: Dir, octets: &[u8])
    ensures { IsOpenedWherePassing context.now dir octets.now }
{}
