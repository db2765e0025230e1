//! How a mandatory part of a message is framed.

/// The frame of a mandatory part (TS 24.007 clause 11.2.1.1).
#[derive(Clone, Copy, Debug, PartialEq, Eq)]
pub enum Frame {
    /// So many octets.
    V(usize),
    /// Any number of octets behind their length of one octet.
    Lv,
    /// Any number of octets behind their length of two octets.
    Lve,
}
