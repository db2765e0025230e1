//! Lines without an answer of their own.

use nas_base::Memory;

/// Why a line has no answer of its own.
#[derive(Clone, Copy, Debug, PartialEq, Eq)]
pub enum Refusal {
    /// No call has this name, or its arguments aren't of its form.
    Unreadable,
    Memory,
}

impl From<Memory> for Refusal {
    fn from(_want: Memory) -> Refusal {
        Refusal::Memory
    }
}
