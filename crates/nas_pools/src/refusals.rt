//! Why no address is taken or given back.

/// A family that the kind names has no free address. Nothing was taken.
#[derive(Clone, Copy, Debug, PartialEq, Eq)]
pub struct Empty {
    /// The kind that was asked for: 1 IPv4, 2 IPv6, 3 both.
    pub kind: u8,
}

/// A part of the address isn't taken. Nothing has changed.
#[derive(Clone, Copy, Debug, PartialEq, Eq)]
pub struct NotTaken;
