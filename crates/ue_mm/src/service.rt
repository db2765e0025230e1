//! Service requests.
ghost use Rattle.std.specs.Prelude.{◌≡◌, OnOk};
ghost use Rattle.ue_mm.specs.Service.{serve, service_accepted, service_rejected, service_request};

use crate::HandsetConfig;
use crate::identification::{ksi_of, short_identity_of};
use crate::procedures::{Phase, Service, copied};
use crate::work::Work;
use mm_messages::{Mm, ServiceReject, ServiceRequest};
use nas_base::Memory;
use nas_base::mm_cause::{IMPLICITLY_DEREGISTERED, UE_IDENTITY_CANNOT_BE_DERIVED_BY_THE_NETWORK};
use nas_layout::Half;
use nas_timers::TimerId;

// Service type: signalling (TS 24.501 clause 9.11.3.50).
const SIGNALLING: Half = Half(0);

// The request of a service.
fn service_request(config: &HandsetConfig, service: &Service) -> Mm
    ensures { result ≡ service_request config.now service.now }
{
    Mm::ServiceRequest(ServiceRequest {
        ksi: service.ksi,
        service_type: SIGNALLING,
        identity: short_identity_of(config, &service.guti),
        status: None,
    })
}

impl Work {
    /// A service request begins.
    #[tactic(auto, unfolding(crate::specs::Service::serve))]
    pub fn serve(&mut self) -> Result<(), Memory>
        ensures { OnOk result (self.new ≡ serve self.old) }
    {
        let service = Service {
            ksi: ksi_of(&self.common.current),
            guti: copied(&self.common.guti),
        };
        let message = service_request(&self.common.config, &service);
        self.request(message)?;
        self.common.connected = true;
        self.phase = Phase::Serving(service);
        self.start(TimerId::T3517)
    }

    /// SERVICE ACCEPT.
    #[tactic(auto, unfolding(crate::specs::Service::service_accepted))]
    pub fn service_accepted(&mut self) -> Result<(), Memory>
        ensures { OnOk result (self.new ≡ service_accepted self.old) }
    {
        self.stop(TimerId::T3517)?;
        self.phase = Phase::Registered;
        Ok(())
    }

    /// SERVICE REJECT.
    #[tactic(auto, unfolding(crate::specs::Service::service_rejected, nas_base::specs::Branches::chosen))]
    pub fn service_rejected(&mut self, reject: &ServiceReject) -> Result<(), Memory>
        ensures { OnOk result (self.new ≡ service_rejected reject.now self.old) }
    {
        if reject.cause == UE_IDENTITY_CANNOT_BE_DERIVED_BY_THE_NETWORK {
            return self.deregister_and_erase();
        }
        if reject.cause == IMPLICITLY_DEREGISTERED {
            return self.deregister();
        }
        self.service_accepted()
    }
}
