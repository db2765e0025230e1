//! SERVICE REQUEST.
ghost use Rattle.std.specs.Prelude.{◌≡◌, OnOk};
ghost use Rattle.amf_core.specs.Service.{service_accept, service_refused, service_reject, service_requested};
ghost use Rattle.amf_core.specs.Work.{by};

use crate::Record;
use crate::acts::Protection;
use crate::work::Work;
use mm_messages::{Mm, ServiceAccept, ServiceReject};
use nas_base::Memory;
use nas_base::mm_cause::{IMPLICITLY_DEREGISTERED, UE_IDENTITY_CANNOT_BE_DERIVED_BY_THE_NETWORK};

// SERVICE ACCEPT.
fn service_accept() -> Mm
    ensures { result ≡ service_accept }
{
    Mm::ServiceAccept(ServiceAccept { status: None })
}

// SERVICE REJECT with this cause.
fn service_reject(cause: u8) -> Mm
    ensures { result ≡ service_reject cause }
{
    Mm::ServiceReject(ServiceReject {
        cause,
        status: None,
    })
}

impl<'a> Work<'a> {
    /// SERVICE REQUEST that passed.
    #[tactic(auto, unfolding(crate::specs::Service::service_requested, nas_base::specs::Branches::chosen))]
    pub fn service_requested(&mut self, link: u16, s: &Record) -> Result<(), Memory>
        ensures { OnOk result (self.new ≡ by (service_requested link s.now) self.old) }
    {
        if s.registered {
            return self.say(link, Protection::Ciphered(s.supi.copy()), service_accept());
        }
        self.answer_for(s, link, service_reject(IMPLICITLY_DEREGISTERED))
    }

    /// SERVICE REQUEST that didn't pass, before secure exchange.
    #[tactic(auto, unfolding(crate::specs::Service::service_refused))]
    pub fn service_refused(&mut self, link: u16) -> Result<(), Memory>
        ensures { OnOk result (self.new ≡ by (service_refused link) self.old) }
    {
        self.answer(
            link,
            service_reject(UE_IDENTITY_CANNOT_BE_DERIVED_BY_THE_NETWORK),
        )
    }
}
