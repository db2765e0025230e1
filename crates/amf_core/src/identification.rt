//! IDENTITY RESPONSE.
ghost use Rattle.std.specs.Prelude.{◌≡◌, OnOk};
ghost use Rattle.amf_core.specs.Identification.{identity_told, suci_told, waited};
ghost use Rattle.amf_core.specs.Work.{by};

use crate::Request;
use crate::work::Work;
use mm_messages::IdentityResponse;
use nas_base::Memory;
use nas_elements::{Identity, Suci};
use std::alloc::Global;

impl<'a> Work<'a> {
    // The request that waited goes on with the subscriber of the SUCI.
    fn go_on(
        &mut self,
        alloc: Global,
        link: u16,
        suci: &Suci,
        request: Request,
    ) -> Result<(), Memory>
        ensures { OnOk result (self.new ≡ by (waited link suci.now request) self.old) }
    {
        let s = self.named_by_suci(suci);
        let mut record = self.link(link);
        record.waiting = None;
        self.put_link(record)?;
        self.request_by_suci(alloc, link, &None, request, s)
    }

    // A SUCI was told.
    #[tactic(auto, unfolding(nas_base::specs::Branches::per))]
    fn suci_told(&mut self, alloc: Global, link: u16, suci: &Suci) -> Result<(), Memory>
        ensures { OnOk result (self.new ≡ by (suci_told link suci.now) self.old) }
    {
        match self.link(link).waiting {
            Some(request) => self.go_on(alloc, link, suci, request),
            None => Ok(()),
        }
    }

    /// IDENTITY RESPONSE.
    #[tactic(auto, unfolding(crate::specs::Identification::identity_told))]
    pub fn identity_told(
        &mut self,
        alloc: Global,
        response: &IdentityResponse,
        link: u16,
    ) -> Result<(), Memory>
        ensures { OnOk result (self.new ≡ by (identity_told response.now link) self.old) }
    {
        match &response.identity {
            Identity::Suci(suci) => self.suci_told(alloc, link, suci),
            Identity::Guti(_) | Identity::Stmsi(_) | Identity::Other(_) => Ok(()),
        }
    }
}
