//! The messages of primary authentication by 5G AKA.
ghost use Rattle.nas_layout.specs.Answers.{Lays};
ghost use Rattle.nas_layout.specs.ReadBack.{TableBack};
ghost use Rattle.nas_layout.specs.Table.{pieces};
ghost use Rattle.nas_layout.specs.Telling.{HearsAll};
ghost use Rattle.mm_messages.specs.Authentication.{authentication_failure, authentication_request, authentication_response};

use nas_base::{Form, Ksi, Reader, Shape, walk};
use nas_layout::{
    Abba, BodyRefusal, Frame, Pieces, Readable, element, fixed_row, iei, known, laws, part,
    read_part, tlv_row,
};

/// AUTHENTICATION REQUEST (TS 24.501 clause 8.2.1).
#[derive(Drop)]
pub struct AuthenticationRequest {
    pub ksi: Ksi,
    pub abba: Abba,
    pub rand: Option<[u8; 16]>,
    pub autn: Option<[u8; 16]>,
}

impl AuthenticationRequest {
    // Reads what stands behind the head.
    #[tactic(auto, unfolding(crate::specs::Authentication::authentication_request))]
    pub(crate) fn read(reader: &mut Reader) -> Result<AuthenticationRequest, BodyRefusal>
        ensures { Lays result authentication_request 1 reader.old }
    {
        let ksi = read_part(1, Frame::V(1), reader)?;
        let abba = read_part(2, Frame::Lv, reader)?;
        let found = walk(
            reader.left(),
            &Shape::from_slice(&[
                fixed_row(iei::AUTHENTICATION_PARAMETER_RAND, 17),
                tlv_row(iei::AUTHENTICATION_PARAMETER_AUTN),
            ])
            .unwrap(),
        );
        Ok(AuthenticationRequest {
            ksi,
            abba,
            rand: known(iei::AUTHENTICATION_PARAMETER_RAND, &found),
            autn: known(iei::AUTHENTICATION_PARAMETER_AUTN, &found),
        })
    }

    // Tells what stands behind the head, piece by piece.
    #[tactic(auto, unfolding(crate::specs::Authentication::authentication_request))]
    pub(crate) fn tell<P: Pieces>(&self, to: &mut P) -> Result<(), P::Refusal>
        ensures { HearsAll P.with_piece P.refuses to.old to.new (pieces authentication_request self.now) result }
    {
        part(to, Frame::V(1), &self.ksi)?;
        part(to, Frame::Lv, &self.abba)?;
        element(
            to,
            iei::AUTHENTICATION_PARAMETER_RAND,
            Form::Fixed(17),
            &self.rand,
        )?;
        element(
            to,
            iei::AUTHENTICATION_PARAMETER_AUTN,
            Form::Tlv,
            &self.autn,
        )
    }

    // What is told is read back: this does nothing.
    #[tactic(auto, unfolding(crate::specs::Authentication::authentication_request))]
    pub(crate) fn is_read_back(&self)
        ensures { TableBack authentication_request self.now }
    {
        self.ksi.is_read_back();
        laws::lv_is_read_back(&self.abba);
        laws::rand_is_read_back(iei::AUTHENTICATION_PARAMETER_RAND, &self.rand);
        laws::tlv_is_read_back(iei::AUTHENTICATION_PARAMETER_AUTN, &self.autn);
    }
}

/// AUTHENTICATION RESPONSE, with RES* (TS 24.501 clause 8.2.2).
#[derive(Drop)]
pub struct AuthenticationResponse {
    pub res_star: Option<[u8; 16]>,
}

impl AuthenticationResponse {
    // Reads what stands behind the head.
    #[tactic(auto, unfolding(crate::specs::Authentication::authentication_response))]
    pub(crate) fn read(reader: &mut Reader) -> Result<AuthenticationResponse, BodyRefusal>
        ensures { Lays result authentication_response 1 reader.old }
    {
        let found = walk(
            reader.left(),
            &Shape::from_slice(&[tlv_row(iei::AUTHENTICATION_RESPONSE_PARAMETER)]).unwrap(),
        );
        Ok(AuthenticationResponse {
            res_star: known(iei::AUTHENTICATION_RESPONSE_PARAMETER, &found),
        })
    }

    // Tells what stands behind the head, piece by piece.
    #[tactic(auto, unfolding(crate::specs::Authentication::authentication_response))]
    pub(crate) fn tell<P: Pieces>(&self, to: &mut P) -> Result<(), P::Refusal>
        ensures { HearsAll P.with_piece P.refuses to.old to.new (pieces authentication_response self.now) result }
    {
        element(
            to,
            iei::AUTHENTICATION_RESPONSE_PARAMETER,
            Form::Tlv,
            &self.res_star,
        )
    }

    // What is told is read back: this does nothing.
    #[tactic(auto, unfolding(crate::specs::Authentication::authentication_response))]
    pub(crate) fn is_read_back(&self)
        ensures { TableBack authentication_response self.now }
    {
        laws::tlv_is_read_back(iei::AUTHENTICATION_RESPONSE_PARAMETER, &self.res_star);
    }
}

/// AUTHENTICATION FAILURE (TS 24.501 clause 8.2.4).
#[derive(Drop)]
pub struct AuthenticationFailure {
    pub cause: u8,
    pub auts: Option<[u8; 14]>,
}

impl AuthenticationFailure {
    // Reads what stands behind the head.
    #[tactic(auto, unfolding(crate::specs::Authentication::authentication_failure))]
    pub(crate) fn read(reader: &mut Reader) -> Result<AuthenticationFailure, BodyRefusal>
        ensures { Lays result authentication_failure 1 reader.old }
    {
        let cause = read_part(1, Frame::V(1), reader)?;
        let found = walk(
            reader.left(),
            &Shape::from_slice(&[tlv_row(iei::AUTHENTICATION_FAILURE_PARAMETER)]).unwrap(),
        );
        Ok(AuthenticationFailure {
            cause,
            auts: known(iei::AUTHENTICATION_FAILURE_PARAMETER, &found),
        })
    }

    // Tells what stands behind the head, piece by piece.
    #[tactic(auto, unfolding(crate::specs::Authentication::authentication_failure))]
    pub(crate) fn tell<P: Pieces>(&self, to: &mut P) -> Result<(), P::Refusal>
        ensures { HearsAll P.with_piece P.refuses to.old to.new (pieces authentication_failure self.now) result }
    {
        part(to, Frame::V(1), &self.cause)?;
        element(
            to,
            iei::AUTHENTICATION_FAILURE_PARAMETER,
            Form::Tlv,
            &self.auts,
        )
    }

    // What is told is read back: this does nothing.
    #[tactic(auto, unfolding(crate::specs::Authentication::authentication_failure))]
    pub(crate) fn is_read_back(&self)
        ensures { TableBack authentication_failure self.now }
    {
        laws::tlv_is_read_back(iei::AUTHENTICATION_FAILURE_PARAMETER, &self.auts);
    }
}
