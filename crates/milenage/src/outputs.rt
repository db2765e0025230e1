//! What the functions f2 to f5 give together.

/// RES, CK, IK and AK (TS 35.206 clause 4.1).
#[derive(Clone, Copy, PartialEq, Eq)]
pub struct F2345 {
    /// The answer to the challenge.
    pub res: [u8; 8],
    /// The cipher key.
    pub ck: [u8; 16],
    /// The integrity key.
    pub ik: [u8; 16],
    /// The anonymity key, which covers SQN.
    pub ak: [u8; 6],
}
