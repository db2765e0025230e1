//! Challenges.
ghost use Rattle.std.specs.Prelude.{◌≡◌};
ghost use Rattle.nas_security.specs.Contexts.{is_challenge};

/// What names a challenge, and with it the security context that comes of it: the sequence number and RAND
/// (TS 33.102 clause 6.3.2).
#[derive(Clone, Copy, PartialEq, Eq)]
pub struct Challenge {
    pub sqn: u64,
    pub rand: [u8; 16],
}

impl Challenge {
    /// Whether both name the same challenge.
    pub fn equals(&self, other: &Challenge) -> bool
        ensures { result ≡ is_challenge self.now other.now }
    {
        self.sqn == other.sqn && self.rand == other.rand
    }
}
