//! What a handset registers for.

/// The kind of a registration (TS 24.501 clauses 5.5.1.2 and 5.5.1.3).
#[derive(Clone, Copy, Debug, PartialEq, Eq)]
pub enum Kind {
    /// Initial registration.
    Initial,
    /// Mobility registration updating.
    Mobility,
    /// Periodic registration updating.
    Periodic,
}
