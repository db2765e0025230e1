//! The messages of de-registration, which either end begins.
ghost use Rattle.nas_layout.specs.Answers.{Lays};
ghost use Rattle.nas_layout.specs.ReadBack.{TableBack};
ghost use Rattle.nas_layout.specs.Table.{pieces};
ghost use Rattle.nas_layout.specs.Telling.{HearsAll};
ghost use Rattle.std.specs.Prelude.{◌≡◌, ◌<◌};
ghost use Rattle.mm_messages.specs.Parts.{deregistration_code, is_switch_off};
ghost use Rattle.mm_messages.specs.Deregistration.{deregistration_request_ue_originating, deregistration_request_ue_terminated};

use nas_base::{Form, Ksi, Reader, Shape, walk};
use nas_elements::Identity;
use nas_layout::{
    BodyRefusal, Frame, Half, Pieces, element, fixed_row, identity_part, iei, known, laws, part,
    read_part, two_halves,
};
use std::alloc::Global;

// The de-registration type, over 3GPP access: bit 4 tells a switch off (TS 24.501 clause 9.11.3.20).
fn deregistration_code(switch_off: bool) -> u8
    ensures code { result ≡ deregistration_code switch_off }
    ensures half { result < 16 }
{
    if switch_off { 9 } else { 1 }
}

// Whether the half tells a switch off.
fn is_switch_off(octet: u8) -> bool
    ensures { result ≡ is_switch_off octet }
{
    octet % 16 >= 8
}

/// DEREGISTRATION REQUEST of the handset (TS 24.501 clause 8.2.12).
#[derive(Drop)]
pub struct DeregistrationRequestUeOriginating {
    pub switch_off: bool,
    pub ksi: Ksi,
    pub identity: Identity,
}

impl DeregistrationRequestUeOriginating {
    // Reads what stands behind the head.
    #[tactic(auto, unfolding(crate::specs::Deregistration::deregistration_request_ue_originating))]
    pub(crate) fn read(
        alloc: Global,
        reader: &mut Reader,
    ) -> Result<DeregistrationRequestUeOriginating, BodyRefusal>
        ensures { Lays result deregistration_request_ue_originating 1 reader.old }
    {
        let first = read_part(1, Frame::V(1), reader)?;
        let identity = identity_part(alloc, 2, reader)?;
        Ok(DeregistrationRequestUeOriginating {
            switch_off: is_switch_off(first),
            ksi: Ksi(first / 16 % 8),
            identity,
        })
    }

    // Tells what stands behind the head, piece by piece.
    #[tactic(auto, unfolding(crate::specs::Deregistration::deregistration_request_ue_originating))]
    pub(crate) fn tell<P: Pieces>(&self, to: &mut P) -> Result<(), P::Refusal>
        ensures { HearsAll P.with_piece P.refuses to.old to.new (pieces deregistration_request_ue_originating self.now) result }
    {
        let deregistration = Half(deregistration_code(self.switch_off));
        part(
            to,
            Frame::V(1),
            &two_halves(deregistration, Half(self.ksi.0)),
        )?;
        part(to, Frame::Lve, &self.identity)
    }

    // What is told is read back: this does nothing.
    #[tactic(auto, unfolding(crate::specs::Deregistration::deregistration_request_ue_originating), using(crate::proofs::HalvesBack::deregistration_back))]
    pub(crate) fn is_read_back(&self)
        ensures { TableBack deregistration_request_ue_originating self.now }
    {
        let _ksi = self.ksi.0;
        laws::identity_is_read_back(&self.identity);
    }
}

/// DEREGISTRATION REQUEST of the network (TS 24.501 clause 8.2.14).
#[derive(Drop)]
pub struct DeregistrationRequestUeTerminated {
    pub switch_off: bool,
    pub cause: Option<u8>,
}

impl DeregistrationRequestUeTerminated {
    // Reads what stands behind the head.
    #[tactic(auto, unfolding(crate::specs::Deregistration::deregistration_request_ue_terminated))]
    pub(crate) fn read(
        reader: &mut Reader,
    ) -> Result<DeregistrationRequestUeTerminated, BodyRefusal>
        ensures { Lays result deregistration_request_ue_terminated 1 reader.old }
    {
        let first = read_part(1, Frame::V(1), reader)?;
        let found = walk(
            reader.left(),
            &Shape::from_slice(&[fixed_row(iei::CAUSE_5GMM, 2)]).unwrap(),
        );
        Ok(DeregistrationRequestUeTerminated {
            switch_off: is_switch_off(first),
            cause: known(iei::CAUSE_5GMM, &found),
        })
    }

    // Tells what stands behind the head, piece by piece.
    #[tactic(auto, unfolding(crate::specs::Deregistration::deregistration_request_ue_terminated))]
    pub(crate) fn tell<P: Pieces>(&self, to: &mut P) -> Result<(), P::Refusal>
        ensures { HearsAll P.with_piece P.refuses to.old to.new (pieces deregistration_request_ue_terminated self.now) result }
    {
        part(to, Frame::V(1), &deregistration_code(self.switch_off))?;
        element(to, iei::CAUSE_5GMM, Form::Fixed(2), &self.cause)
    }

    // What is told is read back: this does nothing.
    #[tactic(auto, unfolding(crate::specs::Deregistration::deregistration_request_ue_terminated), using(crate::proofs::HalvesBack::switch_off_alone_back))]
    pub(crate) fn is_read_back(&self)
        ensures { TableBack deregistration_request_ue_terminated self.now }
    {
        laws::octet_is_read_back(iei::CAUSE_5GMM, &self.cause);
    }
}
