//! The messages of security mode control.
ghost use Rattle.nas_layout.specs.Answers.{Lays};
ghost use Rattle.nas_layout.specs.ReadBack.{TableBack};
ghost use Rattle.nas_layout.specs.Table.{pieces};
ghost use Rattle.nas_layout.specs.Telling.{HearsAll};
ghost use Rattle.mm_messages.specs.SecurityMode.{security_mode_command, security_mode_complete, security_mode_reject};

use nas_base::{Form, Ksi, Octets, Reader, Shape, walk};
use nas_elements::{Algs, Asi, Capability};
use nas_layout::{
    BodyRefusal, Frame, Pieces, Readable, element, fixed_row, iei, known, known_container, laws,
    part, read_part, tlv_row, tlve_row,
};
use std::alloc::Global;

/// SECURITY MODE COMMAND (TS 24.501 clause 8.2.25).
#[derive(Drop)]
pub struct SecurityModeCommand {
    pub algs: Algs,
    pub ksi: Ksi,
    pub capability: Capability,
    pub asi: Option<Asi>,
}

impl SecurityModeCommand {
    // Reads what stands behind the head.
    #[tactic(auto, unfolding(crate::specs::SecurityMode::security_mode_command))]
    pub(crate) fn read(reader: &mut Reader) -> Result<SecurityModeCommand, BodyRefusal>
        ensures { Lays result security_mode_command 1 reader.old }
    {
        let algs = read_part(1, Frame::V(1), reader)?;
        let ksi = read_part(2, Frame::V(1), reader)?;
        let capability = read_part(3, Frame::Lv, reader)?;
        let found = walk(
            reader.left(),
            &Shape::from_slice(&[
                tlv_row(iei::ADDITIONAL_5G_SECURITY_INFORMATION),
                fixed_row(iei::SELECTED_EPS_NAS_SECURITY_ALGORITHMS, 2),
            ])
            .unwrap(),
        );
        Ok(SecurityModeCommand {
            algs,
            ksi,
            capability,
            asi: known(iei::ADDITIONAL_5G_SECURITY_INFORMATION, &found),
        })
    }

    // Tells what stands behind the head, piece by piece.
    #[tactic(auto, unfolding(crate::specs::SecurityMode::security_mode_command))]
    pub(crate) fn tell<P: Pieces>(&self, to: &mut P) -> Result<(), P::Refusal>
        ensures { HearsAll P.with_piece P.refuses to.old to.new (pieces security_mode_command self.now) result }
    {
        part(to, Frame::V(1), &self.algs)?;
        part(to, Frame::V(1), &self.ksi)?;
        part(to, Frame::Lv, &self.capability)?;
        element(
            to,
            iei::ADDITIONAL_5G_SECURITY_INFORMATION,
            Form::Tlv,
            &self.asi,
        )
    }

    // What is told is read back: this does nothing.
    #[tactic(auto, unfolding(crate::specs::SecurityMode::security_mode_command))]
    pub(crate) fn is_read_back(&self)
        ensures { TableBack security_mode_command self.now }
    {
        self.algs.is_read_back();
        self.ksi.is_read_back();
        laws::lv_is_read_back(&self.capability);
        laws::tlv_is_read_back(iei::ADDITIONAL_5G_SECURITY_INFORMATION, &self.asi);
    }
}

/// SECURITY MODE COMPLETE, with the whole request (TS 24.501 clause 8.2.26).
#[derive(Drop)]
pub struct SecurityModeComplete {
    pub message: Option<Octets>,
}

impl SecurityModeComplete {
    // Reads what stands behind the head.
    #[tactic(auto, unfolding(crate::specs::SecurityMode::security_mode_complete))]
    pub(crate) fn read(
        alloc: Global,
        reader: &mut Reader,
    ) -> Result<SecurityModeComplete, BodyRefusal>
        ensures { Lays result security_mode_complete 1 reader.old }
    {
        let found = walk(
            reader.left(),
            &Shape::from_slice(&[tlve_row(iei::NAS_MESSAGE_CONTAINER)]).unwrap(),
        );
        Ok(SecurityModeComplete {
            message: known_container(alloc, iei::NAS_MESSAGE_CONTAINER, &found)?,
        })
    }

    // Tells what stands behind the head, piece by piece.
    #[tactic(auto, unfolding(crate::specs::SecurityMode::security_mode_complete))]
    pub(crate) fn tell<P: Pieces>(&self, to: &mut P) -> Result<(), P::Refusal>
        ensures { HearsAll P.with_piece P.refuses to.old to.new (pieces security_mode_complete self.now) result }
    {
        element(to, iei::NAS_MESSAGE_CONTAINER, Form::Tlve, &self.message)
    }

    // What is told is read back: this does nothing.
    #[tactic(auto, unfolding(crate::specs::SecurityMode::security_mode_complete))]
    pub(crate) fn is_read_back(&self)
        ensures { TableBack security_mode_complete self.now }
    {
        laws::container_is_read_back(iei::NAS_MESSAGE_CONTAINER, &self.message);
    }
}

/// SECURITY MODE REJECT (TS 24.501 clause 8.2.27).
#[derive(Drop)]
pub struct SecurityModeReject {
    pub cause: u8,
}

impl SecurityModeReject {
    // Reads what stands behind the head.
    #[tactic(auto, unfolding(crate::specs::SecurityMode::security_mode_reject))]
    pub(crate) fn read(reader: &mut Reader) -> Result<SecurityModeReject, BodyRefusal>
        ensures { Lays result security_mode_reject 1 reader.old }
    {
        let cause = read_part(1, Frame::V(1), reader)?;
        Ok(SecurityModeReject { cause })
    }

    // Tells what stands behind the head, piece by piece.
    #[tactic(auto, unfolding(crate::specs::SecurityMode::security_mode_reject))]
    pub(crate) fn tell<P: Pieces>(&self, to: &mut P) -> Result<(), P::Refusal>
        ensures { HearsAll P.with_piece P.refuses to.old to.new (pieces security_mode_reject self.now) result }
    {
        part(to, Frame::V(1), &self.cause)
    }

    // What is told is read back: this does nothing.
    #[tactic(auto, unfolding(crate::specs::SecurityMode::security_mode_reject))]
    pub(crate) fn is_read_back(&self)
        ensures { TableBack security_mode_reject self.now }
    {
        self.cause.is_read_back();
    }
}
