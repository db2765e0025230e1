//! Deregistration, by the handset and by the network.
ghost use Rattle.std.specs.Prelude.{◌≡◌, OnOk};
ghost use Rattle.ue_mm.specs.Deregistration.{deregister, deregistering, deregistration_expired, deregistration_request, deregistration_requested, leaving};

use crate::HandsetConfig;
use crate::identification::{identity_of, ksi_of};
use crate::procedures::{Deregistration, Phase, copied};
use crate::work::Work;
use mm_messages::{DeregistrationRequestUeOriginating, Mm};
use nas_base::Memory;
use nas_timers::TimerId;

// How often a request is sent at most.
const SENDINGS: u8 = 5;

// The request of a deregistration.
fn deregistration_request(
    config: &HandsetConfig,
    switch_off: bool,
    deregistration: &Deregistration,
) -> Mm
    ensures { result ≡ deregistration_request config.now switch_off deregistration.now }
{
    Mm::DeregistrationRequestUeOriginating(DeregistrationRequestUeOriginating {
        switch_off,
        ksi: deregistration.ksi,
        identity: identity_of(config, &deregistration.guti),
    })
}

impl Work {
    /// A deregistration begins. A handset that is switched off waits for no answer.
    #[tactic(auto, unfolding(crate::specs::Deregistration::deregister))]
    pub fn leave(&mut self, switch_off: bool) -> Result<(), Memory>
        ensures { OnOk result (self.new ≡ deregister switch_off self.old) }
    {
        let deregistration = self.leaving();
        if switch_off {
            let message = deregistration_request(&self.common.config, true, &deregistration);
            self.request(message)?;
            return self.deregister();
        }
        self.send_deregistration(deregistration)
    }

    // What a deregistration that begins now says.
    fn leaving(&self) -> Deregistration
        ensures { result ≡ leaving self.now }
    {
        Deregistration {
            ksi: ksi_of(&self.common.current),
            guti: copied(&self.common.guti),
            sendings: 1,
        }
    }

    // The request is sent, and its answer awaited.
    fn send_deregistration(&mut self, deregistration: Deregistration) -> Result<(), Memory>
        ensures { OnOk result (self.new ≡ deregistering deregistration self.old) }
    {
        let message = deregistration_request(&self.common.config, false, &deregistration);
        self.request(message)?;
        self.common.connected = true;
        self.phase = Phase::Deregistering(deregistration);
        self.start(TimerId::T3521)
    }

    /// T3521 expired while a deregistration is open.
    #[tactic(auto, unfolding(crate::specs::Deregistration::deregistration_expired, nas_base::specs::Branches::chosen))]
    pub fn deregistration_expired(&mut self, deregistration: Deregistration) -> Result<(), Memory>
        ensures { OnOk result (self.new ≡ deregistration_expired deregistration self.old) }
    {
        if deregistration.sendings < SENDINGS {
            let again = Deregistration {
                ksi: deregistration.ksi,
                guti: deregistration.guti,
                sendings: deregistration.sendings + 1,
            };
            return self.send_deregistration(again);
        }
        self.deregister()
    }

    /// DEREGISTRATION REQUEST of the network.
    #[tactic(auto, unfolding(crate::specs::Deregistration::deregistration_requested))]
    pub fn deregistration_requested(&mut self) -> Result<(), Memory>
        ensures { OnOk result (self.new ≡ deregistration_requested self.old) }
    {
        self.answer(Mm::DeregistrationAcceptUeTerminated)?;
        self.deregister()
    }
}
