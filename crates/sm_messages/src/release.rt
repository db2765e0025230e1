//! The messages of the release of a PDU session.
ghost use Rattle.nas_layout.specs.Answers.{Lays};
ghost use Rattle.nas_layout.specs.ReadBack.{TableBack};
ghost use Rattle.nas_layout.specs.Table.{pieces};
ghost use Rattle.nas_layout.specs.Telling.{HearsAll};
ghost use Rattle.sm_messages.specs.Release.{pdu_session_release_command, pdu_session_release_complete, pdu_session_release_reject, pdu_session_release_request};

use nas_base::{Form, Reader, Shape, walk};
use nas_layout::{
    BodyRefusal, Frame, Pieces, Readable, element, fixed_row, iei, known, laws, part, read_part,
};

/// PDU SESSION RELEASE REQUEST (TS 24.501 clause 8.3.12).
#[derive(Drop)]
pub struct PduSessionReleaseRequest {
    pub cause: Option<u8>,
}

impl PduSessionReleaseRequest {
    // Reads what stands behind the head.
    #[tactic(auto, unfolding(crate::specs::Release::pdu_session_release_request))]
    pub(crate) fn read(reader: &mut Reader) -> Result<PduSessionReleaseRequest, BodyRefusal>
        ensures { Lays result pdu_session_release_request 1 reader.old }
    {
        let found = walk(
            reader.left(),
            &Shape::from_slice(&[fixed_row(iei::CAUSE_5GSM, 2)]).unwrap(),
        );
        Ok(PduSessionReleaseRequest {
            cause: known(iei::CAUSE_5GSM, &found),
        })
    }

    // Tells what stands behind the head, piece by piece.
    #[tactic(auto, unfolding(crate::specs::Release::pdu_session_release_request))]
    pub(crate) fn tell<P: Pieces>(&self, to: &mut P) -> Result<(), P::Refusal>
        ensures { HearsAll P.with_piece P.refuses to.old to.new (pieces pdu_session_release_request self.now) result }
    {
        element(to, iei::CAUSE_5GSM, Form::Fixed(2), &self.cause)
    }

    // What is told is read back: this does nothing.
    #[tactic(auto, unfolding(crate::specs::Release::pdu_session_release_request))]
    pub(crate) fn is_read_back(&self)
        ensures { TableBack pdu_session_release_request self.now }
    {
        laws::octet_is_read_back(iei::CAUSE_5GSM, &self.cause);
    }
}

/// PDU SESSION RELEASE REJECT (TS 24.501 clause 8.3.13).
#[derive(Drop)]
pub struct PduSessionReleaseReject {
    pub cause: u8,
}

impl PduSessionReleaseReject {
    // Reads what stands behind the head.
    #[tactic(auto, unfolding(crate::specs::Release::pdu_session_release_reject))]
    pub(crate) fn read(reader: &mut Reader) -> Result<PduSessionReleaseReject, BodyRefusal>
        ensures { Lays result pdu_session_release_reject 1 reader.old }
    {
        let cause = read_part(1, Frame::V(1), reader)?;
        Ok(PduSessionReleaseReject { cause })
    }

    // Tells what stands behind the head, piece by piece.
    #[tactic(auto, unfolding(crate::specs::Release::pdu_session_release_reject))]
    pub(crate) fn tell<P: Pieces>(&self, to: &mut P) -> Result<(), P::Refusal>
        ensures { HearsAll P.with_piece P.refuses to.old to.new (pieces pdu_session_release_reject self.now) result }
    {
        part(to, Frame::V(1), &self.cause)
    }

    // What is told is read back: this does nothing.
    #[tactic(auto, unfolding(crate::specs::Release::pdu_session_release_reject))]
    pub(crate) fn is_read_back(&self)
        ensures { TableBack pdu_session_release_reject self.now }
    {
        self.cause.is_read_back();
    }
}

/// PDU SESSION RELEASE COMMAND (TS 24.501 clause 8.3.14).
#[derive(Drop)]
pub struct PduSessionReleaseCommand {
    pub cause: u8,
}

impl PduSessionReleaseCommand {
    // Reads what stands behind the head.
    #[tactic(auto, unfolding(crate::specs::Release::pdu_session_release_command))]
    pub(crate) fn read(reader: &mut Reader) -> Result<PduSessionReleaseCommand, BodyRefusal>
        ensures { Lays result pdu_session_release_command 1 reader.old }
    {
        let cause = read_part(1, Frame::V(1), reader)?;
        Ok(PduSessionReleaseCommand { cause })
    }

    // Tells what stands behind the head, piece by piece.
    #[tactic(auto, unfolding(crate::specs::Release::pdu_session_release_command))]
    pub(crate) fn tell<P: Pieces>(&self, to: &mut P) -> Result<(), P::Refusal>
        ensures { HearsAll P.with_piece P.refuses to.old to.new (pieces pdu_session_release_command self.now) result }
    {
        part(to, Frame::V(1), &self.cause)
    }

    // What is told is read back: this does nothing.
    #[tactic(auto, unfolding(crate::specs::Release::pdu_session_release_command))]
    pub(crate) fn is_read_back(&self)
        ensures { TableBack pdu_session_release_command self.now }
    {
        self.cause.is_read_back();
    }
}

/// PDU SESSION RELEASE COMPLETE (TS 24.501 clause 8.3.15).
#[derive(Drop)]
pub struct PduSessionReleaseComplete {
    pub cause: Option<u8>,
}

impl PduSessionReleaseComplete {
    // Reads what stands behind the head.
    #[tactic(auto, unfolding(crate::specs::Release::pdu_session_release_complete))]
    pub(crate) fn read(reader: &mut Reader) -> Result<PduSessionReleaseComplete, BodyRefusal>
        ensures { Lays result pdu_session_release_complete 1 reader.old }
    {
        let found = walk(
            reader.left(),
            &Shape::from_slice(&[fixed_row(iei::CAUSE_5GSM, 2)]).unwrap(),
        );
        Ok(PduSessionReleaseComplete {
            cause: known(iei::CAUSE_5GSM, &found),
        })
    }

    // Tells what stands behind the head, piece by piece.
    #[tactic(auto, unfolding(crate::specs::Release::pdu_session_release_complete))]
    pub(crate) fn tell<P: Pieces>(&self, to: &mut P) -> Result<(), P::Refusal>
        ensures { HearsAll P.with_piece P.refuses to.old to.new (pieces pdu_session_release_complete self.now) result }
    {
        element(to, iei::CAUSE_5GSM, Form::Fixed(2), &self.cause)
    }

    // What is told is read back: this does nothing.
    #[tactic(auto, unfolding(crate::specs::Release::pdu_session_release_complete))]
    pub(crate) fn is_read_back(&self)
        ensures { TableBack pdu_session_release_complete self.now }
    {
        laws::octet_is_read_back(iei::CAUSE_5GSM, &self.cause);
    }
}
