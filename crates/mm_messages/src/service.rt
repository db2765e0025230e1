//! The messages of a service request.
ghost use Rattle.nas_layout.specs.Answers.{Lays};
ghost use Rattle.nas_layout.specs.ReadBack.{TableBack};
ghost use Rattle.nas_layout.specs.Table.{pieces};
ghost use Rattle.nas_layout.specs.Telling.{HearsAll};
ghost use Rattle.mm_messages.specs.Service.{service_accept, service_reject, service_request};

use nas_base::{Form, Ksi, Reader, Shape, walk};
use nas_elements::{Identity, Status};
use nas_layout::{
    BodyRefusal, Frame, Half, Pieces, element, identity_part, iei, known, laws, part, read_part,
    tlv_row, two_halves,
};
use std::alloc::Global;

/// SERVICE REQUEST (TS 24.501 clause 8.2.16).
#[derive(Drop)]
pub struct ServiceRequest {
    pub ksi: Ksi,
    pub service_type: Half,
    pub identity: Identity,
    pub status: Option<Status>,
}

impl ServiceRequest {
    // Reads what stands behind the head.
    #[tactic(auto, unfolding(crate::specs::Service::service_request))]
    pub(crate) fn read(alloc: Global, reader: &mut Reader) -> Result<ServiceRequest, BodyRefusal>
        ensures { Lays result service_request 1 reader.old }
    {
        let first: u8 = read_part(1, Frame::V(1), reader)?;
        let identity = identity_part(alloc, 2, reader)?;
        let found = walk(
            reader.left(),
            &Shape::from_slice(&[tlv_row(iei::PDU_SESSION_STATUS)]).unwrap(),
        );
        Ok(ServiceRequest {
            ksi: Ksi(first % 16 % 8),
            service_type: Half(first / 16),
            identity,
            status: known(iei::PDU_SESSION_STATUS, &found),
        })
    }

    // Tells what stands behind the head, piece by piece.
    #[tactic(auto, unfolding(crate::specs::Service::service_request))]
    pub(crate) fn tell<P: Pieces>(&self, to: &mut P) -> Result<(), P::Refusal>
        ensures { HearsAll P.with_piece P.refuses to.old to.new (pieces service_request self.now) result }
    {
        part(
            to,
            Frame::V(1),
            &two_halves(Half(self.ksi.0), self.service_type),
        )?;
        part(to, Frame::Lve, &self.identity)?;
        element(to, iei::PDU_SESSION_STATUS, Form::Tlv, &self.status)
    }

    // What is told is read back: this does nothing.
    #[tactic(auto, unfolding(crate::specs::Service::service_request), using(crate::proofs::HalvesBack::service_back))]
    pub(crate) fn is_read_back(&self)
        ensures { TableBack service_request self.now }
    {
        let _ksi = self.ksi.0;
        let _service_type = self.service_type.0;
        laws::identity_is_read_back(&self.identity);
        laws::tlv_is_read_back(iei::PDU_SESSION_STATUS, &self.status);
    }
}

/// SERVICE REJECT (TS 24.501 clause 8.2.18).
#[derive(Drop)]
pub struct ServiceReject {
    pub cause: u8,
    pub status: Option<Status>,
}

impl ServiceReject {
    // Reads what stands behind the head.
    #[tactic(auto, unfolding(crate::specs::Service::service_reject))]
    pub(crate) fn read(reader: &mut Reader) -> Result<ServiceReject, BodyRefusal>
        ensures { Lays result service_reject 1 reader.old }
    {
        let cause = read_part(1, Frame::V(1), reader)?;
        let found = walk(
            reader.left(),
            &Shape::from_slice(&[tlv_row(iei::PDU_SESSION_STATUS)]).unwrap(),
        );
        Ok(ServiceReject {
            cause,
            status: known(iei::PDU_SESSION_STATUS, &found),
        })
    }

    // Tells what stands behind the head, piece by piece.
    #[tactic(auto, unfolding(crate::specs::Service::service_reject))]
    pub(crate) fn tell<P: Pieces>(&self, to: &mut P) -> Result<(), P::Refusal>
        ensures { HearsAll P.with_piece P.refuses to.old to.new (pieces service_reject self.now) result }
    {
        part(to, Frame::V(1), &self.cause)?;
        element(to, iei::PDU_SESSION_STATUS, Form::Tlv, &self.status)
    }

    // What is told is read back: this does nothing.
    #[tactic(auto, unfolding(crate::specs::Service::service_reject))]
    pub(crate) fn is_read_back(&self)
        ensures { TableBack service_reject self.now }
    {
        laws::tlv_is_read_back(iei::PDU_SESSION_STATUS, &self.status);
    }
}

/// SERVICE ACCEPT (TS 24.501 clause 8.2.17).
#[derive(Drop)]
pub struct ServiceAccept {
    pub status: Option<Status>,
}

impl ServiceAccept {
    // Reads what stands behind the head.
    #[tactic(auto, unfolding(crate::specs::Service::service_accept))]
    pub(crate) fn read(reader: &mut Reader) -> Result<ServiceAccept, BodyRefusal>
        ensures { Lays result service_accept 1 reader.old }
    {
        let found = walk(
            reader.left(),
            &Shape::from_slice(&[tlv_row(iei::PDU_SESSION_STATUS)]).unwrap(),
        );
        Ok(ServiceAccept {
            status: known(iei::PDU_SESSION_STATUS, &found),
        })
    }

    // Tells what stands behind the head, piece by piece.
    #[tactic(auto, unfolding(crate::specs::Service::service_accept))]
    pub(crate) fn tell<P: Pieces>(&self, to: &mut P) -> Result<(), P::Refusal>
        ensures { HearsAll P.with_piece P.refuses to.old to.new (pieces service_accept self.now) result }
    {
        element(to, iei::PDU_SESSION_STATUS, Form::Tlv, &self.status)
    }

    // What is told is read back: this does nothing.
    #[tactic(auto, unfolding(crate::specs::Service::service_accept))]
    pub(crate) fn is_read_back(&self)
        ensures { TableBack service_accept self.now }
    {
        laws::tlv_is_read_back(iei::PDU_SESSION_STATUS, &self.status);
    }
}
