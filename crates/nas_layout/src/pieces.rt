//! A message told piece by piece.
ghost use Rattle.std.specs.Prelude.{◌≡◌, true, length, option_map, IfSome};
ghost use Rattle.nas_layout.specs.Pieces.{Piece, is_room_in, is_room_under, mandatory, optional};
ghost use Rattle.nas_layout.specs.Telling.{Hears};

use crate::{Coded, Frame};
use nas_base::Form;

/// Who is told a message piece by piece, in the order in which the pieces are written.
pub trait Pieces {
    /// Why a piece is refused.
    type Refusal: Drop;

    /// What the listener is once it was told a piece.
    ghost with_piece: { Self → Piece → Self };

    /// When it may refuse a piece.
    ghost refuses: { Self → Piece → Type 0 };

    /// A part with these octets in its frame.
    ///
    /// # Errors
    ///
    /// What the listener has.
    fn mandatory(&mut self, frame: Frame, octets: &[u8]) -> Result<(), Self::Refusal>
        requires { is_room_in frame (length octets.now) ≡ true }
        ensures { Hears with_piece refuses self.old self.new (mandatory frame octets.now) result };

    /// An element with these octets as its value, where it is there.
    ///
    /// # Errors
    ///
    /// What the listener has.
    fn optional(&mut self, iei: u8, form: Form, octets: Option<&[u8]>) -> Result<(), Self::Refusal>
        requires { IfSome octets (λ o. is_room_under iei form (length o.now) ≡ true) }
        ensures { Hears with_piece refuses self.old self.new (optional (record { iei = iei; form = form; value = option_map (λ o. o.now) octets.entry })) result };
}

/// Tells a part.
///
/// # Errors
///
/// What the listener has.
#[tactic(auto, using(crate::proofs::Rooms::room_in_less))]
pub fn part<P: Pieces, E: Coded>(to: &mut P, frame: Frame, value: &E) -> Result<(), P::Refusal>
    requires { is_room_in frame E.most ≡ true }
    ensures { Hears P.with_piece P.refuses to.old to.new (mandatory frame (E.coding.octets value.now)) result }
{
    let octets = value.octets();
    to.mandatory(frame, octets.as_slice())
}

/// Tells an element that may be absent.
///
/// # Errors
///
/// What the listener has.
#[tactic(auto, using(crate::proofs::Rooms::room_under_less))]
pub fn element<P: Pieces, E: Coded>(
    to: &mut P,
    iei: u8,
    form: Form,
    value: &Option<E>,
) -> Result<(), P::Refusal>
    requires { is_room_under iei form E.most ≡ true }
    ensures { Hears P.with_piece P.refuses to.old to.new (optional (record { iei = iei; form = form; value = option_map E.coding.octets value.now })) result }
{
    match value {
        None => to.optional(iei, form, None),
        Some(value) => {
            let octets = value.octets();
            to.optional(iei, form, Some(octets.as_slice()))
        }
    }
}
