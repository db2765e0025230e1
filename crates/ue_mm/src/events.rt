//! Timers that expire, a connection that is lost, and a restart.
ghost use Rattle.std.specs.Prelude.{◌≡◌, OnOk};
ghost use Rattle.ue_mm.specs.Connection.{idle};
ghost use Rattle.ue_mm.specs.Events.{dropped, expired, restarted};
ghost use Rattle.ue_mm.specs.declared.procedures.Phase.TheVariants.{Registered};

use crate::procedures::Phase;
use crate::work::Work;
use nas_base::Memory;
use nas_timers::TimerId;

impl Work {
    /// A timer expired. One whose procedure has ended finds no owner.
    #[tactic(auto, unfolding(crate::specs::Events::expired))]
    pub fn expired(&mut self, id: TimerId) -> Result<(), Memory>
        ensures { OnOk result (self.new ≡ expired id self.old) }
    {
        match (id, &self.phase) {
            (TimerId::T3510, Phase::Registering(registration)) => {
                let kind = registration.kind;
                self.leave_registration(kind)
            }
            (TimerId::T3516, _) => {
                self.common.stored = None;
                Ok(())
            }
            (TimerId::T3517, Phase::Serving(_)) => self.leave_service(),
            (TimerId::T3521, Phase::Deregistering(deregistration)) => {
                let deregistration = deregistration.copy();
                self.deregistration_expired(deregistration)
            }
            _ => Ok(()),
        }
    }

    // A service request ends without an answer.
    fn leave_service(&mut self) -> Result<(), Memory>
        ensures { OnOk result (self.new ≡ idle (record self.old { phase = Registered })) }
    {
        self.phase = Phase::Registered;
        self.idle()
    }

    /// The connection is lost.
    #[tactic(auto, unfolding(crate::specs::Events::dropped))]
    pub fn dropped(&mut self) -> Result<(), Memory>
        ensures { OnOk result (self.new ≡ dropped self.old) }
    {
        match &self.phase {
            Phase::Deregistered => Ok(()),
            Phase::Registering(registration) => {
                let kind = registration.kind;
                self.stop(TimerId::T3510)?;
                self.leave_registration(kind)
            }
            Phase::Registered => self.idle(),
            Phase::Serving(_) => {
                self.stop(TimerId::T3517)?;
                self.leave_service()
            }
            Phase::Deregistering(_) => self.deregister(),
        }
    }

    /// The handset is switched off and on.
    #[tactic(auto, unfolding(crate::specs::Events::restarted))]
    pub fn restarted(&mut self) -> Result<(), Memory>
        ensures { OnOk result (self.new ≡ restarted self.old) }
    {
        self.deregister_and_erase()
    }
}
