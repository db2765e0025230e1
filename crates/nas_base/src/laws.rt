//! What the definitions of this crate say together. These functions do nothing: their contracts are the laws.
ghost use Rattle.nas_base.specs.Causes.{MmCausesHaveNumbers, SmCausesHaveNumbers};
ghost use Rattle.nas_base.specs.Kinds.{KindsHaveTypes};
ghost use Rattle.nas_base.specs.WalkLaws.{FirstsAreKept, WrittenAreRead};

/// From the message type of a kind comes that kind, and a message type gives a kind only where it is that kind's.
pub fn kinds_have_types()
    ensures { KindsHaveTypes }
{}

/// What `get` answers behind `walk` is the first of all elements with that identifier, where the shape has a row of it, and
/// else nothing; a second element of an identifier changes nothing.
pub fn firsts_are_kept()
    ensures { FirstsAreKept }
{}

/// Elements are read where they were written, known and unknown ones: each as the first, and then those of the octets
/// behind it.
pub fn written_are_read()
    ensures { WrittenAreRead }
{}

/// The names of the 5GMM causes stand for the numbers that TS 24.501 gives them.
pub fn mm_causes_have_numbers()
    ensures { MmCausesHaveNumbers }
{}

/// The names of the 5GSM causes stand for the numbers that TS 24.501 gives them.
pub fn sm_causes_have_numbers()
    ensures { SmCausesHaveNumbers }
{}
