//! Why lists of operations are refused.

/// Why octets were not read as a list of operations.
#[derive(Clone, Copy, Debug, PartialEq, Eq)]
pub enum OpsRefusal {
    /// No list has these octets (cause 84). `at` is where the first wrong operation starts, counted from 0.
    Syntax { at: usize },
    /// There was no memory left.
    Memory,
}

/// What is wrong with operations on the rules that are there (cause 83).
#[derive(Clone, Copy, Debug, PartialEq, Eq)]
pub enum QosFault {
    /// The operation on this rule doesn't go with the rules that are there.
    Semantic { rule: u8 },
    /// There would be more than 16 rules, and `count` is their number; or else more than 64 filters, and `count` is theirs.
    TooMany { count: u16 },
}

/// Why operations were not applied.
#[derive(Clone, Copy, Debug, PartialEq, Eq)]
pub enum ApplyRefusal {
    /// They don't go with the rules.
    Qos(QosFault),
    /// There was no memory left.
    Memory,
}

// Why a part of an operation was not read.
#[derive(Clone, Copy)]
pub(crate) enum Unread {
    Wrong,
    Memory,
}
