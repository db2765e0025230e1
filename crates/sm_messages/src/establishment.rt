//! The messages of the establishment of a PDU session.
ghost use Rattle.nas_layout.specs.Answers.{Lays};
ghost use Rattle.nas_layout.specs.ReadBack.{TableBack};
ghost use Rattle.nas_layout.specs.Table.{pieces};
ghost use Rattle.nas_layout.specs.Telling.{HearsAll};
ghost use Rattle.sm_messages.specs.Establishment.{pdu_session_establishment_accept, pdu_session_establishment_reject, pdu_session_establishment_request};

use crate::session_type::type_element_is_read_back;
use crate::{FlowDescriptions, SessionType};
use nas_base::{Form, Octets, Reader, Row, Shape, walk};
use nas_elements::{Address, Ambr, Dnn, Slice};
use nas_layout::{
    BodyRefusal, Frame, Half, Pieces, Readable, container_part, element, fixed_row, iei, known,
    laws, part, read_part, tlv_row, tlve_row, two_halves,
};
use std::alloc::Global;

/// PDU SESSION ESTABLISHMENT REQUEST, with the maximum data rates of integrity protection for the uplink and for the downlink
/// (TS 24.501 clause 8.3.1).
#[derive(Drop)]
pub struct PduSessionEstablishmentRequest {
    pub maximum_rates: [u8; 2],
    pub session_type: Option<SessionType>,
    pub ssc_mode: Option<Half>,
}

impl PduSessionEstablishmentRequest {
    // Reads what stands behind the head.
    #[tactic(auto, unfolding(crate::specs::Establishment::pdu_session_establishment_request))]
    pub(crate) fn read(reader: &mut Reader) -> Result<PduSessionEstablishmentRequest, BodyRefusal>
        ensures { Lays result pdu_session_establishment_request 1 reader.old }
    {
        let maximum_rates = read_part(1, Frame::V(2), reader)?;
        let found = walk(
            reader.left(),
            &Shape::from_slice(&[
                Row {
                    iei: iei::PDU_SESSION_TYPE,
                    form: Form::Half,
                },
                Row {
                    iei: iei::SSC_MODE,
                    form: Form::Half,
                },
                fixed_row(iei::MAXIMUM_NUMBER_OF_SUPPORTED_PACKET_FILTERS, 3),
            ])
            .unwrap(),
        );
        Ok(PduSessionEstablishmentRequest {
            maximum_rates,
            session_type: known(iei::PDU_SESSION_TYPE, &found),
            ssc_mode: known(iei::SSC_MODE, &found),
        })
    }

    // Tells what stands behind the head, piece by piece.
    #[tactic(auto, unfolding(crate::specs::Establishment::pdu_session_establishment_request))]
    pub(crate) fn tell<P: Pieces>(&self, to: &mut P) -> Result<(), P::Refusal>
        ensures { HearsAll P.with_piece P.refuses to.old to.new (pieces pdu_session_establishment_request self.now) result }
    {
        part(to, Frame::V(2), &self.maximum_rates)?;
        element(to, iei::PDU_SESSION_TYPE, Form::Half, &self.session_type)?;
        element(to, iei::SSC_MODE, Form::Half, &self.ssc_mode)
    }

    // What is told is read back: this does nothing.
    #[tactic(auto, unfolding(crate::specs::Establishment::pdu_session_establishment_request))]
    pub(crate) fn is_read_back(&self)
        ensures { TableBack pdu_session_establishment_request self.now }
    {
        self.maximum_rates.is_read_back();
        type_element_is_read_back(iei::PDU_SESSION_TYPE, &self.session_type);
        laws::half_element_is_read_back(iei::SSC_MODE, &self.ssc_mode);
    }
}

/// PDU SESSION ESTABLISHMENT ACCEPT (TS 24.501 clause 8.3.2).
#[derive(Drop)]
pub struct PduSessionEstablishmentAccept {
    pub session_type: SessionType,
    pub ssc_mode: Half,
    pub rules: Octets,
    pub ambr: Ambr,
    pub cause: Option<u8>,
    pub address: Option<Address>,
    pub slice: Option<Slice>,
    pub flows: Option<FlowDescriptions>,
    pub dnn: Option<Dnn>,
}

impl PduSessionEstablishmentAccept {
    // Reads what stands behind the head.
    #[tactic(auto, unfolding(crate::specs::Establishment::pdu_session_establishment_accept))]
    pub(crate) fn read(
        alloc: Global,
        reader: &mut Reader,
    ) -> Result<PduSessionEstablishmentAccept, BodyRefusal>
        ensures { Lays result pdu_session_establishment_accept 1 reader.old }
    {
        let first: u8 = read_part(1, Frame::V(1), reader)?;
        let rules = container_part(alloc, 2, reader)?;
        let ambr = read_part(3, Frame::Lv, reader)?;
        let found = walk(
            reader.left(),
            &Shape::from_slice(&[
                fixed_row(iei::CAUSE_5GSM, 2),
                tlv_row(iei::PDU_ADDRESS),
                tlv_row(iei::S_NSSAI),
                tlve_row(iei::AUTHORIZED_QOS_FLOW_DESCRIPTIONS),
                tlv_row(iei::DNN),
                fixed_row(iei::RQ_TIMER_VALUE, 2),
            ])
            .unwrap(),
        );
        Ok(PduSessionEstablishmentAccept {
            session_type: SessionType::from_half(first % 16),
            ssc_mode: Half(first / 16),
            rules,
            ambr,
            cause: known(iei::CAUSE_5GSM, &found),
            address: known(iei::PDU_ADDRESS, &found),
            slice: known(iei::S_NSSAI, &found),
            flows: known(iei::AUTHORIZED_QOS_FLOW_DESCRIPTIONS, &found),
            dnn: known(iei::DNN, &found),
        })
    }

    // Tells what stands behind the head, piece by piece.
    #[tactic(auto, unfolding(crate::specs::Establishment::pdu_session_establishment_accept))]
    pub(crate) fn tell<P: Pieces>(&self, to: &mut P) -> Result<(), P::Refusal>
        ensures { HearsAll P.with_piece P.refuses to.old to.new (pieces pdu_session_establishment_accept self.now) result }
    {
        part(
            to,
            Frame::V(1),
            &two_halves(Half(self.session_type.0), self.ssc_mode),
        )?;
        part(to, Frame::Lve, &self.rules)?;
        part(to, Frame::Lv, &self.ambr)?;
        element(to, iei::CAUSE_5GSM, Form::Fixed(2), &self.cause)?;
        element(to, iei::PDU_ADDRESS, Form::Tlv, &self.address)?;
        element(to, iei::S_NSSAI, Form::Tlv, &self.slice)?;
        element(
            to,
            iei::AUTHORIZED_QOS_FLOW_DESCRIPTIONS,
            Form::Tlve,
            &self.flows,
        )?;
        element(to, iei::DNN, Form::Tlv, &self.dnn)
    }

    // What is told is read back: this does nothing.
    #[tactic(auto, unfolding(crate::specs::Establishment::pdu_session_establishment_accept), using(crate::proofs::HalvesBack::accept_back))]
    pub(crate) fn is_read_back(&self)
        ensures { TableBack pdu_session_establishment_accept self.now }
    {
        let _session_type = self.session_type.0;
        let _ssc_mode = self.ssc_mode.0;
        laws::container_part_is_read_back(&self.rules);
        laws::lv_is_read_back(&self.ambr);
        laws::octet_is_read_back(iei::CAUSE_5GSM, &self.cause);
        laws::tlv_is_read_back(iei::PDU_ADDRESS, &self.address);
        laws::tlv_is_read_back(iei::S_NSSAI, &self.slice);
        laws::tlve_is_read_back(iei::AUTHORIZED_QOS_FLOW_DESCRIPTIONS, &self.flows);
        laws::tlv_is_read_back(iei::DNN, &self.dnn);
    }
}

/// PDU SESSION ESTABLISHMENT REJECT (TS 24.501 clause 8.3.3).
#[derive(Drop)]
pub struct PduSessionEstablishmentReject {
    pub cause: u8,
}

impl PduSessionEstablishmentReject {
    // Reads what stands behind the head.
    #[tactic(auto, unfolding(crate::specs::Establishment::pdu_session_establishment_reject))]
    pub(crate) fn read(reader: &mut Reader) -> Result<PduSessionEstablishmentReject, BodyRefusal>
        ensures { Lays result pdu_session_establishment_reject 1 reader.old }
    {
        let cause = read_part(1, Frame::V(1), reader)?;
        Ok(PduSessionEstablishmentReject { cause })
    }

    // Tells what stands behind the head, piece by piece.
    #[tactic(auto, unfolding(crate::specs::Establishment::pdu_session_establishment_reject))]
    pub(crate) fn tell<P: Pieces>(&self, to: &mut P) -> Result<(), P::Refusal>
        ensures { HearsAll P.with_piece P.refuses to.old to.new (pieces pdu_session_establishment_reject self.now) result }
    {
        part(to, Frame::V(1), &self.cause)
    }

    // What is told is read back: this does nothing.
    #[tactic(auto, unfolding(crate::specs::Establishment::pdu_session_establishment_reject))]
    pub(crate) fn is_read_back(&self)
        ensures { TableBack pdu_session_establishment_reject self.now }
    {
        self.cause.is_read_back();
    }
}
