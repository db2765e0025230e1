//! What becomes of a message, and whose transaction it names.

/// What is done with a message that came in a state.
#[derive(Clone, Copy, Debug, PartialEq, Eq)]
pub enum Action {
    /// It is taken.
    Take,
    /// It is discarded.
    Discard,
    /// It is answered with STATUS, cause 98: message type not compatible with the protocol state.
    Status98,
    /// It is answered with 5GSM STATUS, cause 43: invalid PDU session identity.
    Status43,
    /// It is answered with 5GSM STATUS, cause 47: PTI mismatch.
    Status47,
}

/// Whose procedure transaction identity a 5GSM message has (TS 24.501 clause 7.3.1).
#[derive(Clone, Copy, Debug, PartialEq, Eq)]
pub enum PtiCase {
    /// 0: no transaction's.
    None,
    /// That of the open transaction.
    Mine,
    /// Any other.
    Foreign,
}
