//! 5GMM STATUS.
ghost use Rattle.nas_layout.specs.Answers.{Lays};
ghost use Rattle.nas_layout.specs.ReadBack.{TableBack};
ghost use Rattle.nas_layout.specs.Table.{pieces};
ghost use Rattle.nas_layout.specs.Telling.{HearsAll};
ghost use Rattle.mm_messages.specs.StatusMessage.{five_gmm_status};

use nas_base::Reader;
use nas_layout::{BodyRefusal, Frame, Pieces, Readable, part, read_part};

/// 5GMM STATUS (TS 24.501 clause 8.2.29).
#[derive(Drop)]
pub struct FiveGmmStatus {
    pub cause: u8,
}

impl FiveGmmStatus {
    // Reads what stands behind the head.
    #[tactic(auto, unfolding(crate::specs::StatusMessage::five_gmm_status))]
    pub(crate) fn read(reader: &mut Reader) -> Result<FiveGmmStatus, BodyRefusal>
        ensures { Lays result five_gmm_status 1 reader.old }
    {
        let cause = read_part(1, Frame::V(1), reader)?;
        Ok(FiveGmmStatus { cause })
    }

    // Tells what stands behind the head, piece by piece.
    #[tactic(auto, unfolding(crate::specs::StatusMessage::five_gmm_status))]
    pub(crate) fn tell<P: Pieces>(&self, to: &mut P) -> Result<(), P::Refusal>
        ensures { HearsAll P.with_piece P.refuses to.old to.new (pieces five_gmm_status self.now) result }
    {
        part(to, Frame::V(1), &self.cause)
    }

    // What is told is read back: this does nothing.
    #[tactic(auto, unfolding(crate::specs::StatusMessage::five_gmm_status))]
    pub(crate) fn is_read_back(&self)
        ensures { TableBack five_gmm_status self.now }
    {
        self.cause.is_read_back();
    }
}
