//! Of a connection that ends, and of a handset that is no longer registered.
ghost use Rattle.std.specs.Prelude.{◌≡◌, OnOk};
ghost use Rattle.ue_mm.specs.Connection.{deregistered, erased, idle};

use crate::UeOut;
use crate::procedures::Phase;
use crate::work::Work;
use nas_base::Memory;
use nas_timers::TimerId;

impl Work {
    /// The connection is gone, and with it what the sessions have under way.
    #[tactic(auto, unfolding(crate::specs::Connection::idle))]
    pub fn idle(&mut self) -> Result<(), Memory>
        ensures { OnOk result (self.new ≡ idle self.old) }
    {
        self.common.connected = false;
        self.common.secure = false;
        self.tell(UeOut::Abandon)
    }

    /// Deregistered. The 5G-GUTI and the contexts stay.
    #[tactic(auto, unfolding(crate::specs::Connection::deregistered))]
    pub fn deregister(&mut self) -> Result<(), Memory>
        ensures { OnOk result (self.new ≡ deregistered self.old) }
    {
        self.phase = Phase::Deregistered;
        self.common.stored = None;
        self.stop(TimerId::T3510)?;
        self.stop(TimerId::T3516)?;
        self.stop(TimerId::T3517)?;
        self.stop(TimerId::T3521)?;
        self.idle()?;
        self.tell(UeOut::Clear)
    }

    /// The 5G-GUTI and the contexts are dropped.
    #[tactic(auto, unfolding(crate::specs::Connection::erased))]
    pub fn erase(&mut self)
        ensures { self.new ≡ erased self.old }
    {
        self.common.guti = None;
        self.common.current = None;
        self.common.pending = None;
    }

    /// Deregistered, and nothing of the network's is kept.
    pub fn deregister_and_erase(&mut self) -> Result<(), Memory>
        ensures { OnOk result (self.new ≡ erased (deregistered self.old)) }
    {
        self.deregister()?;
        self.erase();
        Ok(())
    }
}
