//! De-registration, by the handset and by the network.
ghost use Rattle.std.specs.Prelude.{◌≡◌, OnOk};
ghost use Rattle.amf_core.specs.Deregistration.{deregistered, deregistration_accepted, deregistration_put, deregistration_requested, deregistration_sent, is_deregistering, unregistered};
ghost use Rattle.amf_core.specs.Work.{by};

use crate::acts::Protection;
use crate::registration::is_on;
use crate::work::Work;
use crate::{Deregistering, Procedure, Record, SmfAsk};
use mm_messages::{DeregistrationRequestUeOriginating, DeregistrationRequestUeTerminated, Mm};
use nas_base::Memory;
use nas_timers::TimerId;

/// A subscriber that isn't registered, without a procedure.
pub fn unregistered(s: Record) -> Record
    ensures { result ≡ unregistered s }
{
    Record {
        procedure: Procedure::Idle,
        registered: false,
        ..s
    }
}

// Whether a de-registration by the network is open.
fn is_deregistering(procedure: &Procedure) -> bool
    ensures { result ≡ is_deregistering procedure.now }
{
    match procedure {
        Procedure::Deregistering(_) => true,
        Procedure::Idle
        | Procedure::Challenging(_)
        | Procedure::Accepting(_)
        | Procedure::Updating(_) => false,
    }
}

impl<'a> Work<'a> {
    // Not registered any more.
    #[tactic(auto, unfolding(crate::specs::Deregistration::deregistered))]
    fn deregister(&mut self, s: &Record) -> Result<(), Memory>
        ensures { OnOk result (self.new ≡ by (deregistered s.now) self.old) }
    {
        self.stop_open(s)?;
        self.put(unregistered(s.copy()))?;
        self.ask(SmfAsk::ReleaseAll, s)
    }

    /// DEREGISTRATION REQUEST of the handset, which passed.
    #[tactic(auto, unfolding(crate::specs::Deregistration::deregistration_requested, nas_base::specs::Branches::chosen))]
    pub fn deregistration_requested(
        &mut self,
        request: &DeregistrationRequestUeOriginating,
        link: u16,
        s: &Record,
    ) -> Result<(), Memory>
        ensures { OnOk result (self.new ≡ by (deregistration_requested request.now link s.now) self.old) }
    {
        self.deregister(s)?;
        if request.switch_off {
            return Ok(());
        }
        self.say(
            link,
            Protection::Ciphered(s.supi.copy()),
            Mm::DeregistrationAcceptUeOriginating,
        )
    }

    /// DEREGISTRATION ACCEPT of the handset.
    #[tactic(auto, unfolding(crate::specs::Deregistration::deregistration_accepted, nas_base::specs::Branches::chosen))]
    pub fn deregistration_accepted(&mut self, link: u16, s: &Record) -> Result<(), Memory>
        ensures { OnOk result (self.new ≡ by (deregistration_accepted link s.now) self.old) }
    {
        if is_deregistering(&s.procedure) && is_on(link, s.link) {
            return self.deregister(s);
        }
        Ok(())
    }

    // DEREGISTRATION REQUEST of the network.
    fn send_deregistration(&mut self, s: &Record) -> Result<(), Memory>
        ensures { OnOk result (self.new ≡ by (deregistration_sent s.now) self.old) }
    {
        self.say_on(
            s.link,
            Protection::Ciphered(s.supi.copy()),
            Mm::DeregistrationRequestUeTerminated(DeregistrationRequestUeTerminated {
                switch_off: false,
                cause: None,
            }),
        )
    }

    /// A de-registration by the network stands as the subscriber's procedure, its request is sent, and its timer runs.
    pub fn put_deregistration(&mut self, sendings: u8, s: &Record) -> Result<(), Memory>
        ensures { OnOk result (self.new ≡ by (deregistration_put (record { sendings = sendings }) s.now) self.old) }
    {
        let procedure = Procedure::Deregistering(Deregistering { sendings });
        self.put(Record {
            procedure,
            ..s.copy()
        })?;
        self.send_deregistration(s)?;
        self.start(TimerId::T3522, s)
    }
}
