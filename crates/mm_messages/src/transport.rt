//! The messages that carry others.
ghost use Rattle.nas_layout.specs.Answers.{Lays};
ghost use Rattle.nas_layout.specs.ReadBack.{TableBack};
ghost use Rattle.nas_layout.specs.Table.{pieces};
ghost use Rattle.nas_layout.specs.Telling.{HearsAll};
ghost use Rattle.mm_messages.specs.Transport.{dl_nas_transport, ul_nas_transport};

use nas_base::{Form, Octets, Reader, Row, Shape, walk};
use nas_elements::{Dnn, Slice};
use nas_layout::{
    BodyRefusal, Frame, Half, Pieces, container_part, element, fixed_row, iei, known, laws, part,
    read_part, tlv_row,
};
use std::alloc::Global;

/// UL NAS TRANSPORT (TS 24.501 clause 8.2.10).
#[derive(Drop)]
pub struct UlNasTransport {
    pub container_type: Half,
    pub container: Octets,
    pub psi: Option<u8>,
    pub request_type: Option<Half>,
    pub slice: Option<Slice>,
    pub dnn: Option<Dnn>,
}

impl UlNasTransport {
    // Reads what stands behind the head.
    #[tactic(auto, unfolding(crate::specs::Transport::ul_nas_transport))]
    pub(crate) fn read(alloc: Global, reader: &mut Reader) -> Result<UlNasTransport, BodyRefusal>
        ensures { Lays result ul_nas_transport 1 reader.old }
    {
        let container_type = read_part(1, Frame::V(1), reader)?;
        let container = container_part(alloc, 2, reader)?;
        let found = walk(
            reader.left(),
            &Shape::from_slice(&[
                fixed_row(iei::PDU_SESSION_ID, 2),
                Row {
                    iei: iei::REQUEST_TYPE,
                    form: Form::Half,
                },
                tlv_row(iei::S_NSSAI),
                tlv_row(iei::DNN),
                fixed_row(iei::OLD_PDU_SESSION_ID, 2),
            ])
            .unwrap(),
        );
        Ok(UlNasTransport {
            container_type,
            container,
            psi: known(iei::PDU_SESSION_ID, &found),
            request_type: known(iei::REQUEST_TYPE, &found),
            slice: known(iei::S_NSSAI, &found),
            dnn: known(iei::DNN, &found),
        })
    }

    // Tells what stands behind the head, piece by piece.
    #[tactic(auto, unfolding(crate::specs::Transport::ul_nas_transport))]
    pub(crate) fn tell<P: Pieces>(&self, to: &mut P) -> Result<(), P::Refusal>
        ensures { HearsAll P.with_piece P.refuses to.old to.new (pieces ul_nas_transport self.now) result }
    {
        part(to, Frame::V(1), &self.container_type)?;
        part(to, Frame::Lve, &self.container)?;
        element(to, iei::PDU_SESSION_ID, Form::Fixed(2), &self.psi)?;
        element(to, iei::REQUEST_TYPE, Form::Half, &self.request_type)?;
        element(to, iei::S_NSSAI, Form::Tlv, &self.slice)?;
        element(to, iei::DNN, Form::Tlv, &self.dnn)
    }

    // What is told is read back: this does nothing.
    #[tactic(auto, unfolding(crate::specs::Transport::ul_nas_transport))]
    pub(crate) fn is_read_back(&self)
        ensures { TableBack ul_nas_transport self.now }
    {
        let _container_type = self.container_type.0;
        laws::container_part_is_read_back(&self.container);
        laws::octet_is_read_back(iei::PDU_SESSION_ID, &self.psi);
        laws::half_element_is_read_back(iei::REQUEST_TYPE, &self.request_type);
        laws::tlv_is_read_back(iei::S_NSSAI, &self.slice);
        laws::tlv_is_read_back(iei::DNN, &self.dnn);
    }
}

/// DL NAS TRANSPORT (TS 24.501 clause 8.2.11).
#[derive(Drop)]
pub struct DlNasTransport {
    pub container_type: Half,
    pub container: Octets,
    pub psi: Option<u8>,
    pub cause: Option<u8>,
}

impl DlNasTransport {
    // Reads what stands behind the head.
    #[tactic(auto, unfolding(crate::specs::Transport::dl_nas_transport))]
    pub(crate) fn read(alloc: Global, reader: &mut Reader) -> Result<DlNasTransport, BodyRefusal>
        ensures { Lays result dl_nas_transport 1 reader.old }
    {
        let container_type = read_part(1, Frame::V(1), reader)?;
        let container = container_part(alloc, 2, reader)?;
        let found = walk(
            reader.left(),
            &Shape::from_slice(&[
                fixed_row(iei::PDU_SESSION_ID, 2),
                fixed_row(iei::CAUSE_5GMM, 2),
            ])
            .unwrap(),
        );
        Ok(DlNasTransport {
            container_type,
            container,
            psi: known(iei::PDU_SESSION_ID, &found),
            cause: known(iei::CAUSE_5GMM, &found),
        })
    }

    // Tells what stands behind the head, piece by piece.
    #[tactic(auto, unfolding(crate::specs::Transport::dl_nas_transport))]
    pub(crate) fn tell<P: Pieces>(&self, to: &mut P) -> Result<(), P::Refusal>
        ensures { HearsAll P.with_piece P.refuses to.old to.new (pieces dl_nas_transport self.now) result }
    {
        part(to, Frame::V(1), &self.container_type)?;
        part(to, Frame::Lve, &self.container)?;
        element(to, iei::PDU_SESSION_ID, Form::Fixed(2), &self.psi)?;
        element(to, iei::CAUSE_5GMM, Form::Fixed(2), &self.cause)
    }

    // What is told is read back: this does nothing.
    #[tactic(auto, unfolding(crate::specs::Transport::dl_nas_transport))]
    pub(crate) fn is_read_back(&self)
        ensures { TableBack dl_nas_transport self.now }
    {
        let _container_type = self.container_type.0;
        laws::container_part_is_read_back(&self.container);
        laws::octet_is_read_back(iei::PDU_SESSION_ID, &self.psi);
        laws::octet_is_read_back(iei::CAUSE_5GMM, &self.cause);
    }
}
