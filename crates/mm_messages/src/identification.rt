//! The messages of identification.
ghost use Rattle.nas_layout.specs.Answers.{Lays};
ghost use Rattle.nas_layout.specs.ReadBack.{TableBack};
ghost use Rattle.nas_layout.specs.Table.{pieces};
ghost use Rattle.nas_layout.specs.Telling.{HearsAll};
ghost use Rattle.mm_messages.specs.Identification.{identity_request, identity_response};

use nas_base::Reader;
use nas_elements::Identity;
use nas_layout::{BodyRefusal, Frame, Half, Pieces, identity_part, laws, part, read_part};
use std::alloc::Global;

/// IDENTITY REQUEST (TS 24.501 clause 8.2.21).
#[derive(Drop)]
pub struct IdentityRequest {
    pub identity_type: Half,
}

impl IdentityRequest {
    // Reads what stands behind the head.
    #[tactic(auto, unfolding(crate::specs::Identification::identity_request))]
    pub(crate) fn read(reader: &mut Reader) -> Result<IdentityRequest, BodyRefusal>
        ensures { Lays result identity_request 1 reader.old }
    {
        let identity_type = read_part(1, Frame::V(1), reader)?;
        Ok(IdentityRequest { identity_type })
    }

    // Tells what stands behind the head, piece by piece.
    #[tactic(auto, unfolding(crate::specs::Identification::identity_request))]
    pub(crate) fn tell<P: Pieces>(&self, to: &mut P) -> Result<(), P::Refusal>
        ensures { HearsAll P.with_piece P.refuses to.old to.new (pieces identity_request self.now) result }
    {
        part(to, Frame::V(1), &self.identity_type)
    }

    // What is told is read back: this does nothing.
    #[tactic(auto, unfolding(crate::specs::Identification::identity_request))]
    pub(crate) fn is_read_back(&self)
        ensures { TableBack identity_request self.now }
    {
        let _identity_type = self.identity_type.0;
    }
}

/// IDENTITY RESPONSE (TS 24.501 clause 8.2.22).
#[derive(Drop)]
pub struct IdentityResponse {
    pub identity: Identity,
}

impl IdentityResponse {
    // Reads what stands behind the head.
    #[tactic(auto, unfolding(crate::specs::Identification::identity_response))]
    pub(crate) fn read(alloc: Global, reader: &mut Reader) -> Result<IdentityResponse, BodyRefusal>
        ensures { Lays result identity_response 1 reader.old }
    {
        let identity = identity_part(alloc, 1, reader)?;
        Ok(IdentityResponse { identity })
    }

    // Tells what stands behind the head, piece by piece.
    #[tactic(auto, unfolding(crate::specs::Identification::identity_response))]
    pub(crate) fn tell<P: Pieces>(&self, to: &mut P) -> Result<(), P::Refusal>
        ensures { HearsAll P.with_piece P.refuses to.old to.new (pieces identity_response self.now) result }
    {
        part(to, Frame::Lve, &self.identity)
    }

    // What is told is read back: this does nothing.
    #[tactic(auto, unfolding(crate::specs::Identification::identity_response))]
    pub(crate) fn is_read_back(&self)
        ensures { TableBack identity_response self.now }
    {
        laws::identity_is_read_back(&self.identity);
    }
}
