//! Octets of which no value was read.

/// No value has the octets. Up to the place `at`, counted from 0, they could still have become a value's; with the octet at
/// that place they no longer can. Where they just end too early, `at` is their number.
#[derive(Clone, Copy, Debug, PartialEq, Eq)]
pub struct Wrong {
    pub at: usize,
}
