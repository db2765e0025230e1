//! The messages of registration.
ghost use Rattle.nas_layout.specs.Answers.{Lays};
ghost use Rattle.nas_layout.specs.ReadBack.{TableBack};
ghost use Rattle.nas_layout.specs.Table.{pieces};
ghost use Rattle.nas_layout.specs.Telling.{HearsAll};
ghost use Rattle.std.specs.Prelude.{◌≡◌, false};
ghost use Rattle.nas_layout.specs.Answers.{Takes};
ghost use Rattle.nas_layout.specs.Table.{part_at};
ghost use Rattle.nas_layout.specs.declared.frame.Frame.TheVariants.{Lv};
ghost use Rattle.mm_messages.specs.Parts.{registration_type_code, registration_type_of, result_in};
ghost use Rattle.mm_messages.specs.Registration.{registration_accept, registration_reject, registration_request};

use nas_base::{Form, Ksi, Reader, Shape, walk};
use nas_elements::{Capability, Guti, Identity, Nssai, Status, TaiList, Timer3};
use nas_layout::{
    BodyRefusal, Frame, Half, Pieces, Readable, cut, element, fixed_row, identity_part, iei, known,
    laws, part, read_part, tlv_row, tlve_row, two_halves,
};
use std::alloc::Global;

// A follow-on request is pending: bit 4 beside the registration type.
const FOLLOW_ON: u8 = 8;

/// The 5GS registration type (TS 24.501 clause 9.11.3.7).
#[derive(Clone, Copy, Debug, PartialEq, Eq)]
pub enum RegistrationType {
    /// Initial registration.
    Initial,
    /// Mobility registration updating.
    Mobility,
    /// Periodic registration updating.
    Periodic,
    /// Emergency registration, which is read so that it can be refused.
    Emergency,
}

impl RegistrationType {
    // Its three bits.
    fn code(self) -> u8
        ensures { result ≡ registration_type_code self }
    {
        match self {
            RegistrationType::Initial => 1,
            RegistrationType::Mobility => 2,
            RegistrationType::Periodic => 3,
            RegistrationType::Emergency => 4,
        }
    }

    // The type in a half. All other values than these are read as an initial registration.
    fn from_half(half: u8) -> RegistrationType
        ensures { result ≡ registration_type_of half }
    {
        match half % 8 {
            2 => RegistrationType::Mobility,
            3 => RegistrationType::Periodic,
            4 => RegistrationType::Emergency,
            _ => RegistrationType::Initial,
        }
    }
}

// A 5GS registration result behind its length of one octet.
fn read_result(part: u8, reader: &mut Reader) -> Result<u8, BodyRefusal>
    ensures { Takes result reader.new (λ x. false) (part_at part Lv result_in reader.old) }
{
    let at = reader.place();
    match cut(part, Frame::Lv, reader)? {
        [octet] => Ok(*octet),
        _ => Err(BodyRefusal::Mandatory { part, at }),
    }
}

/// REGISTRATION REQUEST (TS 24.501 clause 8.2.6).
#[derive(Drop)]
pub struct RegistrationRequest {
    pub registration: RegistrationType,
    pub ksi: Ksi,
    pub identity: Identity,
    pub capability: Option<Capability>,
    pub status: Option<Status>,
}

impl RegistrationRequest {
    // Reads what stands behind the head.
    #[tactic(auto, unfolding(crate::specs::Registration::registration_request))]
    pub(crate) fn read(
        alloc: Global,
        reader: &mut Reader,
    ) -> Result<RegistrationRequest, BodyRefusal>
        ensures { Lays result registration_request 1 reader.old }
    {
        let first: u8 = read_part(1, Frame::V(1), reader)?;
        let identity = identity_part(alloc, 2, reader)?;
        let found = walk(
            reader.left(),
            &Shape::from_slice(&[
                tlv_row(iei::UE_SECURITY_CAPABILITY),
                tlv_row(iei::PDU_SESSION_STATUS),
                fixed_row(iei::LAST_VISITED_REGISTERED_TAI, 7),
            ])
            .unwrap(),
        );
        Ok(RegistrationRequest {
            registration: RegistrationType::from_half(first % 16),
            ksi: Ksi(first / 16 % 8),
            identity,
            capability: known(iei::UE_SECURITY_CAPABILITY, &found),
            status: known(iei::PDU_SESSION_STATUS, &found),
        })
    }

    // Tells what stands behind the head, piece by piece.
    #[tactic(auto, unfolding(crate::specs::Registration::registration_request))]
    pub(crate) fn tell<P: Pieces>(&self, to: &mut P) -> Result<(), P::Refusal>
        ensures { HearsAll P.with_piece P.refuses to.old to.new (pieces registration_request self.now) result }
    {
        let registration = Half(self.registration.code() + FOLLOW_ON);
        part(to, Frame::V(1), &two_halves(registration, Half(self.ksi.0)))?;
        part(to, Frame::Lve, &self.identity)?;
        element(to, iei::UE_SECURITY_CAPABILITY, Form::Tlv, &self.capability)?;
        element(to, iei::PDU_SESSION_STATUS, Form::Tlv, &self.status)
    }

    // What is told is read back: this does nothing.
    #[tactic(auto, unfolding(crate::specs::Registration::registration_request), using(crate::proofs::HalvesBack::registration_back))]
    pub(crate) fn is_read_back(&self)
        ensures { TableBack registration_request self.now }
    {
        let _ksi = self.ksi.0;
        laws::identity_is_read_back(&self.identity);
        laws::tlv_is_read_back(iei::UE_SECURITY_CAPABILITY, &self.capability);
        laws::tlv_is_read_back(iei::PDU_SESSION_STATUS, &self.status);
    }
}

/// REGISTRATION ACCEPT (TS 24.501 clause 8.2.7).
#[derive(Drop)]
pub struct RegistrationAccept {
    pub result: u8,
    pub guti: Option<Guti>,
    pub tai_list: Option<TaiList>,
    pub nssai: Option<Nssai>,
    pub status: Option<Status>,
    pub t3512: Option<Timer3>,
}

impl RegistrationAccept {
    // Reads what stands behind the head.
    #[tactic(auto, unfolding(crate::specs::Registration::registration_accept))]
    pub(crate) fn read(reader: &mut Reader) -> Result<RegistrationAccept, BodyRefusal>
        ensures { Lays result registration_accept 1 reader.old }
    {
        let result = read_result(1, reader)?;
        let found = walk(
            reader.left(),
            &Shape::from_slice(&[
                tlve_row(iei::GUTI_5G),
                tlv_row(iei::TAI_LIST),
                tlv_row(iei::ALLOWED_NSSAI),
                tlv_row(iei::PDU_SESSION_STATUS),
                tlv_row(iei::T3512_VALUE),
            ])
            .unwrap(),
        );
        Ok(RegistrationAccept {
            result,
            guti: known(iei::GUTI_5G, &found),
            tai_list: known(iei::TAI_LIST, &found),
            nssai: known(iei::ALLOWED_NSSAI, &found),
            status: known(iei::PDU_SESSION_STATUS, &found),
            t3512: known(iei::T3512_VALUE, &found),
        })
    }

    // Tells what stands behind the head, piece by piece.
    #[tactic(auto, unfolding(crate::specs::Registration::registration_accept))]
    pub(crate) fn tell<P: Pieces>(&self, to: &mut P) -> Result<(), P::Refusal>
        ensures { HearsAll P.with_piece P.refuses to.old to.new (pieces registration_accept self.now) result }
    {
        part(to, Frame::Lv, &self.result)?;
        element(to, iei::GUTI_5G, Form::Tlve, &self.guti)?;
        element(to, iei::TAI_LIST, Form::Tlv, &self.tai_list)?;
        element(to, iei::ALLOWED_NSSAI, Form::Tlv, &self.nssai)?;
        element(to, iei::PDU_SESSION_STATUS, Form::Tlv, &self.status)?;
        element(to, iei::T3512_VALUE, Form::Tlv, &self.t3512)
    }

    // What is told is read back: this does nothing.
    #[tactic(auto, unfolding(crate::specs::Registration::registration_accept))]
    pub(crate) fn is_read_back(&self)
        ensures { TableBack registration_accept self.now }
    {
        laws::tlve_is_read_back(iei::GUTI_5G, &self.guti);
        laws::tlv_is_read_back(iei::TAI_LIST, &self.tai_list);
        laws::tlv_is_read_back(iei::ALLOWED_NSSAI, &self.nssai);
        laws::tlv_is_read_back(iei::PDU_SESSION_STATUS, &self.status);
        laws::tlv_is_read_back(iei::T3512_VALUE, &self.t3512);
    }
}

/// REGISTRATION REJECT (TS 24.501 clause 8.2.9).
#[derive(Drop)]
pub struct RegistrationReject {
    pub cause: u8,
}

impl RegistrationReject {
    // Reads what stands behind the head.
    #[tactic(auto, unfolding(crate::specs::Registration::registration_reject))]
    pub(crate) fn read(reader: &mut Reader) -> Result<RegistrationReject, BodyRefusal>
        ensures { Lays result registration_reject 1 reader.old }
    {
        let cause = read_part(1, Frame::V(1), reader)?;
        Ok(RegistrationReject { cause })
    }

    // Tells what stands behind the head, piece by piece.
    #[tactic(auto, unfolding(crate::specs::Registration::registration_reject))]
    pub(crate) fn tell<P: Pieces>(&self, to: &mut P) -> Result<(), P::Refusal>
        ensures { HearsAll P.with_piece P.refuses to.old to.new (pieces registration_reject self.now) result }
    {
        part(to, Frame::V(1), &self.cause)
    }

    // What is told is read back: this does nothing.
    #[tactic(auto, unfolding(crate::specs::Registration::registration_reject))]
    pub(crate) fn is_read_back(&self)
        ensures { TableBack registration_reject self.now }
    {
        self.cause.is_read_back();
    }
}
