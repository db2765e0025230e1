//! The messages of the modification of a PDU session.
ghost use Rattle.nas_layout.specs.Answers.{Lays};
ghost use Rattle.nas_layout.specs.ReadBack.{TableBack};
ghost use Rattle.nas_layout.specs.Table.{pieces};
ghost use Rattle.nas_layout.specs.Telling.{HearsAll};
ghost use Rattle.sm_messages.specs.Modification.{pdu_session_modification_command, pdu_session_modification_command_reject, pdu_session_modification_reject, pdu_session_modification_request};

use nas_base::{Form, Octets, Reader, Shape, walk};
use nas_elements::Ambr;
use nas_layout::{
    BodyRefusal, Frame, Pieces, Readable, element, fixed_row, iei, known, known_container, laws,
    part, read_part, tlv_row, tlve_row,
};
use std::alloc::Global;

/// PDU SESSION MODIFICATION REQUEST (TS 24.501 clause 8.3.7).
#[derive(Drop)]
pub struct PduSessionModificationRequest {
    pub cause: Option<u8>,
    pub rules: Option<Octets>,
}

impl PduSessionModificationRequest {
    // Reads what stands behind the head.
    #[tactic(auto, unfolding(crate::specs::Modification::pdu_session_modification_request))]
    pub(crate) fn read(
        alloc: Global,
        reader: &mut Reader,
    ) -> Result<PduSessionModificationRequest, BodyRefusal>
        ensures { Lays result pdu_session_modification_request 1 reader.old }
    {
        let found = walk(
            reader.left(),
            &Shape::from_slice(&[
                fixed_row(iei::CAUSE_5GSM, 2),
                tlve_row(iei::QOS_RULES),
                fixed_row(iei::MAXIMUM_NUMBER_OF_SUPPORTED_PACKET_FILTERS, 3),
                fixed_row(iei::INTEGRITY_PROTECTION_MAXIMUM_DATA_RATE, 3),
            ])
            .unwrap(),
        );
        Ok(PduSessionModificationRequest {
            cause: known(iei::CAUSE_5GSM, &found),
            rules: known_container(alloc, iei::QOS_RULES, &found)?,
        })
    }

    // Tells what stands behind the head, piece by piece.
    #[tactic(auto, unfolding(crate::specs::Modification::pdu_session_modification_request))]
    pub(crate) fn tell<P: Pieces>(&self, to: &mut P) -> Result<(), P::Refusal>
        ensures { HearsAll P.with_piece P.refuses to.old to.new (pieces pdu_session_modification_request self.now) result }
    {
        element(to, iei::CAUSE_5GSM, Form::Fixed(2), &self.cause)?;
        element(to, iei::QOS_RULES, Form::Tlve, &self.rules)
    }

    // What is told is read back: this does nothing.
    #[tactic(auto, unfolding(crate::specs::Modification::pdu_session_modification_request))]
    pub(crate) fn is_read_back(&self)
        ensures { TableBack pdu_session_modification_request self.now }
    {
        laws::octet_is_read_back(iei::CAUSE_5GSM, &self.cause);
        laws::container_is_read_back(iei::QOS_RULES, &self.rules);
    }
}

/// PDU SESSION MODIFICATION REJECT (TS 24.501 clause 8.3.8).
#[derive(Drop)]
pub struct PduSessionModificationReject {
    pub cause: u8,
}

impl PduSessionModificationReject {
    // Reads what stands behind the head.
    #[tactic(auto, unfolding(crate::specs::Modification::pdu_session_modification_reject))]
    pub(crate) fn read(reader: &mut Reader) -> Result<PduSessionModificationReject, BodyRefusal>
        ensures { Lays result pdu_session_modification_reject 1 reader.old }
    {
        let cause = read_part(1, Frame::V(1), reader)?;
        Ok(PduSessionModificationReject { cause })
    }

    // Tells what stands behind the head, piece by piece.
    #[tactic(auto, unfolding(crate::specs::Modification::pdu_session_modification_reject))]
    pub(crate) fn tell<P: Pieces>(&self, to: &mut P) -> Result<(), P::Refusal>
        ensures { HearsAll P.with_piece P.refuses to.old to.new (pieces pdu_session_modification_reject self.now) result }
    {
        part(to, Frame::V(1), &self.cause)
    }

    // What is told is read back: this does nothing.
    #[tactic(auto, unfolding(crate::specs::Modification::pdu_session_modification_reject))]
    pub(crate) fn is_read_back(&self)
        ensures { TableBack pdu_session_modification_reject self.now }
    {
        self.cause.is_read_back();
    }
}

/// PDU SESSION MODIFICATION COMMAND (TS 24.501 clause 8.3.9).
#[derive(Drop)]
pub struct PduSessionModificationCommand {
    pub cause: Option<u8>,
    pub ambr: Option<Ambr>,
    pub rules: Option<Octets>,
}

impl PduSessionModificationCommand {
    // Reads what stands behind the head.
    #[tactic(auto, unfolding(crate::specs::Modification::pdu_session_modification_command))]
    pub(crate) fn read(
        alloc: Global,
        reader: &mut Reader,
    ) -> Result<PduSessionModificationCommand, BodyRefusal>
        ensures { Lays result pdu_session_modification_command 1 reader.old }
    {
        let found = walk(
            reader.left(),
            &Shape::from_slice(&[
                fixed_row(iei::CAUSE_5GSM, 2),
                tlv_row(iei::SESSION_AMBR),
                tlve_row(iei::QOS_RULES),
                fixed_row(iei::RQ_TIMER_VALUE, 2),
            ])
            .unwrap(),
        );
        Ok(PduSessionModificationCommand {
            cause: known(iei::CAUSE_5GSM, &found),
            ambr: known(iei::SESSION_AMBR, &found),
            rules: known_container(alloc, iei::QOS_RULES, &found)?,
        })
    }

    // Tells what stands behind the head, piece by piece.
    #[tactic(auto, unfolding(crate::specs::Modification::pdu_session_modification_command))]
    pub(crate) fn tell<P: Pieces>(&self, to: &mut P) -> Result<(), P::Refusal>
        ensures { HearsAll P.with_piece P.refuses to.old to.new (pieces pdu_session_modification_command self.now) result }
    {
        element(to, iei::CAUSE_5GSM, Form::Fixed(2), &self.cause)?;
        element(to, iei::SESSION_AMBR, Form::Tlv, &self.ambr)?;
        element(to, iei::QOS_RULES, Form::Tlve, &self.rules)
    }

    // What is told is read back: this does nothing.
    #[tactic(auto, unfolding(crate::specs::Modification::pdu_session_modification_command))]
    pub(crate) fn is_read_back(&self)
        ensures { TableBack pdu_session_modification_command self.now }
    {
        laws::octet_is_read_back(iei::CAUSE_5GSM, &self.cause);
        laws::tlv_is_read_back(iei::SESSION_AMBR, &self.ambr);
        laws::container_is_read_back(iei::QOS_RULES, &self.rules);
    }
}

/// PDU SESSION MODIFICATION COMMAND REJECT (TS 24.501 clause 8.3.11).
#[derive(Drop)]
pub struct PduSessionModificationCommandReject {
    pub cause: u8,
}

impl PduSessionModificationCommandReject {
    // Reads what stands behind the head.
    #[tactic(auto, unfolding(crate::specs::Modification::pdu_session_modification_command_reject))]
    pub(crate) fn read(
        reader: &mut Reader,
    ) -> Result<PduSessionModificationCommandReject, BodyRefusal>
        ensures { Lays result pdu_session_modification_command_reject 1 reader.old }
    {
        let cause = read_part(1, Frame::V(1), reader)?;
        Ok(PduSessionModificationCommandReject { cause })
    }

    // Tells what stands behind the head, piece by piece.
    #[tactic(auto, unfolding(crate::specs::Modification::pdu_session_modification_command_reject))]
    pub(crate) fn tell<P: Pieces>(&self, to: &mut P) -> Result<(), P::Refusal>
        ensures { HearsAll P.with_piece P.refuses to.old to.new (pieces pdu_session_modification_command_reject self.now) result }
    {
        part(to, Frame::V(1), &self.cause)
    }

    // What is told is read back: this does nothing.
    #[tactic(auto, unfolding(crate::specs::Modification::pdu_session_modification_command_reject))]
    pub(crate) fn is_read_back(&self)
        ensures { TableBack pdu_session_modification_command_reject self.now }
    {
        self.cause.is_read_back();
    }
}
