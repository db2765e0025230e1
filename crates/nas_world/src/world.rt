//! Both ends, and their events one by one.
ghost use Rattle.std.specs.Prelude.{◌≡◌, IfOk, OnErr};
ghost use Rattle.nas_world.specs.Events.{step_of};
ghost use Rattle.nas_world.specs.State.{first, honest};

use crate::cards::cards_of;
use crate::honesty::Judged;
use crate::taken::Taken;
use crate::{Event, Seen, SentLog, TakenLog, WorldConfig};
use nas_base::{Memory, Supi};
use nas_handset::Handset;
use nas_network::Network;
use nas_security::Sends;
use std::alloc::Global;
use std::marker::Model;

/// A handset and a network, with the logs of what each has sent, of what passed a check, and of the security contexts that the handset
/// took into use.
#[derive(Drop)]
pub struct World {
    pub(crate) handset: Handset,
    pub(crate) network: Network,
    pub(crate) random: [u8; 16],
    pub(crate) judged: Judged,
    pub(crate) taken: Taken,
    pub(crate) supi: Supi,
}

impl Model for World {
    ghost use Rattle.nas_world.specs.State.{WorldState};

    ghost Value = { WorldState };

    ghost view = { λ w. record { handset = w.handset; network = w.network; random = w.random; up = w.judged.up; down = w.judged.down; taken = w.taken; passes = w.judged.passes; plmn = w.judged.plmn; cards = w.judged.cards; supi = w.supi } };
}

impl World {
    /// The world of no events: the handset is Deregistered and idle, the network knows nothing yet of its subscribers, and nothing was
    /// sent.
    ///
    /// # Errors
    ///
    /// `Memory`.
    pub fn new(alloc: Global, config: &WorldConfig) -> Result<World, Memory>
        ensures { IfOk result (λ world. world ≡ first config.now) }
    {
        let own = &config.handset;
        let net = &config.net;
        let handset = Handset::new(alloc, own)?;
        let network = Network::new(alloc, net)?;
        let cards = cards_of(alloc, net.subscribers.as_slice())?;
        Ok(World {
            handset,
            network,
            random: [0; 16],
            judged: Judged::new(alloc, net.plmn.copy(), cards),
            taken: Taken::new(alloc),
            supi: own.supi.copy(),
        })
    }

    /// One event.
    ///
    /// # Errors
    ///
    /// `Memory`; all is then as before.
    pub fn step(&mut self, alloc: Global, event: &Event) -> Result<Seen, Memory>
        ensures ok { IfOk result (λ seen. step_of self.old event.now ≡ (self.new, seen)) }
        ensures err { OnErr result (self.new ≡ self.old) }
    {
        match event {
            Event::Command(command) => self.command(alloc, command),
            Event::NetCommand(order) => self.order(alloc, *order),
            Event::ToNet(number) => self.to_net(alloc, *number),
            Event::ToUe(number) => self.to_ue(alloc, *number),
            Event::InjectNet { fresh, octets } => self.inject_net(alloc, *fresh, octets),
            Event::InjectUe(octets) => self.inject_ue(alloc, octets),
            Event::UeAt(now) => self.ue_at(alloc, *now),
            Event::NetAt(now) => self.net_at(alloc, *now),
            Event::DropUe => self.drop_ue(alloc),
            Event::DropNet => self.drop_net(alloc),
            Event::Restart => self.restart(alloc),
            Event::Random(words) => {
                self.random = *words;
                Ok(Seen::of(Sends::new(alloc)))
            }
        }
    }

    /// The handset.
    pub fn handset(&self) -> &Handset
        ensures { result.now ≡ self.now.handset }
    {
        &self.handset
    }

    /// The network.
    pub fn network(&self) -> &Network
        ensures { result.now ≡ self.now.network }
    {
        &self.network
    }

    /// All that was sent.
    pub fn sent(&self) -> &SentLog
        ensures { result.now ≡ record { up = self.now.up; down = self.now.down } }
    {
        self.judged.sent()
    }

    /// The security contexts that the handset took into use.
    pub fn taken(&self) -> &TakenLog
        ensures { result.now ≡ self.now.taken }
    {
        self.taken.log()
    }

    /// Whether nobody forged: all octets that passed a check had been sent before by the other end, under that challenge and count. The
    /// verdict is kept as the run goes, so this walks over nothing.
    pub fn honest(&self) -> bool
        ensures { result ≡ honest self.now }
    {
        self.judged.is_honest()
    }
}
