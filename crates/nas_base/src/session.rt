//! What names a PDU session, and a procedure on one.
ghost use Rattle.std.specs.Prelude.{◌≡◌};
ghost use Rattle.nas_base.specs.Values.{psi_from, pti_from};

use std::marker::Model;

/// A PDU session identity that names a session, 1 to 15 (TS 24.501 clause 9.4).
#[derive(Clone, Copy, Debug, PartialEq, Eq, PartialOrd, Ord)]
pub struct Psi(pub u8);

impl Model for Psi {
    ghost use Rattle.std.specs.Prelude.{ℕ, ◌≡◌, true};
    ghost use Rattle.nas_base.specs.Values.{is_psi};

    ghost Value = { ℕ };

    ghost view = { λ p. p.0 };

    ghost invariant = { λ p. is_psi p.0 ≡ true };

    ghost inverse = { λ n. record { 0 = n } };
}

impl Psi {
    /// The identity of this number, or None exactly where it isn't from 1 to 15.
    pub fn from_number(n: u8) -> Option<Psi>
        ensures { result ≡ psi_from n }
    {
        if n == 0 || n > 15 {
            return None;
        }
        Some(Psi(n))
    }
}

/// A procedure transaction identity that names a transaction, 1 to 254 (TS 24.501 clause 9.6).
#[derive(Clone, Copy, Debug, PartialEq, Eq, PartialOrd, Ord)]
pub struct Pti(pub u8);

impl Model for Pti {
    ghost use Rattle.std.specs.Prelude.{ℕ, ◌≡◌, true};
    ghost use Rattle.nas_base.specs.Values.{is_pti};

    ghost Value = { ℕ };

    ghost view = { λ p. p.0 };

    ghost invariant = { λ p. is_pti p.0 ≡ true };

    ghost inverse = { λ n. record { 0 = n } };
}

impl Pti {
    /// The identity of this number, or None exactly where it isn't from 1 to 254.
    pub fn from_number(n: u8) -> Option<Pti>
        ensures { result ≡ pti_from n }
    {
        if n == 0 || n > 254 {
            return None;
        }
        Some(Pti(n))
    }
}
