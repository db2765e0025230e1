//! What the definitions of this crate say together. These functions do nothing: their contracts are the laws.
ghost use Rattle.nas_timers.specs.TimerLaws.{DeadlinesStand, DueIsLeast, StartsReplace, StopsRemove};

/// The deadline of a timer stands beside its name among those that run, and no name stands there with two deadlines.
pub fn deadlines_stand()
    ensures { DeadlinesStand }
{}

/// A timer that is started has its new deadline, and all others have theirs.
pub fn starts_replace()
    ensures { StartsReplace }
{}

/// A timer that is stopped has no deadline, and all others have theirs.
pub fn stops_remove()
    ensures { StopsRemove }
{}

/// What is due has a deadline that has come, and no other name that is due has an earlier deadline, or an equal deadline and
/// an earlier name. Nothing is due exactly where no deadline has come.
pub fn due_is_least()
    ensures { DueIsLeast }
{}
