//! Want of memory.

/// There was no memory left. A call that answers so has changed nothing; one that writes has written a front of its text.
#[derive(Clone, Copy, Debug, PartialEq, Eq)]
pub struct Memory;
