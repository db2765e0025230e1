//! Commands to both ends.
ghost use Rattle.std.specs.Prelude.{◌≡◌, IfOk, OnErr};
ghost use Rattle.nas_network.specs.Owners.{HaveOwners};
ghost use Rattle.nas_network.specs.TakingOver.{taken_over};
ghost use Rattle.nas_world.specs.Events.{order_for, ordered, sent_by_handset, sent_by_network, ue_commanded};

use crate::logs::copied;
use crate::{NetOrder, RefusedWord, Seen, World};
use nas_base::{Memory, Supi};
use nas_handset::{CommandRefusal, Handset, UeCommand};
use nas_network::{NetCommand, NetRefusal, NetTurn};
use nas_security::Sends;
use std::alloc::Global;

impl World {
    /// The handset is given a command.
    #[tactic(auto, using(crate::proofs::Outcomes::carried_out), unfolding(crate::specs::Events::ue_commanded))]
    pub(crate) fn command(&mut self, alloc: Global, command: &UeCommand) -> Result<Seen, Memory>
        ensures ok { IfOk result (λ seen. ue_commanded command.now self.old ≡ (self.new, seen)) }
        ensures err { OnErr result (self.new ≡ self.old) }
    {
        match self.handset.follow_command(alloc, command) {
            Ok((handset, sends)) => self.handset_sends(alloc, handset, sends),
            Err(CommandRefusal::WrongState { state: _ }) => {
                Ok(Seen::refusal(alloc, RefusedWord::WrongState))
            }
            Err(CommandRefusal::Spent { next: _ }) => {
                Ok(Seen::refusal(alloc, RefusedWord::Spent))
            }
            Err(CommandRefusal::Memory) => Err(Memory),
        }
    }

    /// The network is given a command about the handset's subscriber.
    #[tactic(auto, unfolding(crate::specs::Events::ordered))]
    pub(crate) fn order(&mut self, alloc: Global, order: NetOrder) -> Result<Seen, Memory>
        ensures ok { IfOk result (λ seen. ordered order self.old ≡ (self.new, seen)) }
        ensures err { OnErr result (self.new ≡ self.old) }
    {
        let command = order_for(order, &self.supi);
        match self.network.follow_command(alloc, &self.random, &command) {
            Ok((turn, delivery)) => self.network_sends(alloc, turn, delivery.sends),
            Err(NetRefusal::UnknownSupi) => { Ok(Seen::refusal(alloc, RefusedWord::UnknownSupi)) }
            Err(NetRefusal::WrongState { state: _ }) => {
                Ok(Seen::refusal(alloc, RefusedWord::WrongState))
            }
            Err(NetRefusal::SqnSpent { sqn: _ }) => {
                Ok(Seen::refusal(alloc, RefusedWord::SqnSpent))
            }
            Err(NetRefusal::Uncompleted { tmsi: _ }) => {
                Ok(Seen::refusal(alloc, RefusedWord::Uncompleted))
            }
            Err(NetRefusal::Updated { tmsi: _ }) => {
                Ok(Seen::refusal(alloc, RefusedWord::Updated))
            }
            Err(NetRefusal::TmsiSpent { last: _ }) => {
                Ok(Seen::refusal(alloc, RefusedWord::TmsiSpent))
            }
            Err(NetRefusal::Memory) => Err(Memory),
        }
    }

    /// The handset came to this, and sent messages.
    pub(crate) fn handset_sends(
        &mut self,
        alloc: Global,
        handset: Handset,
        sends: Sends,
    ) -> Result<Seen, Memory>
        ensures ok { IfOk result (λ seen. sent_by_handset handset sends self.old ≡ (self.new, seen)) }
        ensures err { OnErr result (self.new ≡ self.old) }
    {
        let seen = Seen::of(copied(alloc, &sends)?);
        self.judged.send_up(alloc, sends)?;
        self.handset = handset;
        Ok(seen)
    }

    /// The network took its turn, and sent messages.
    pub(crate) fn network_sends(
        &mut self,
        alloc: Global,
        turn: NetTurn,
        sends: Sends,
    ) -> Result<Seen, Memory>
        requires { HaveOwners (taken_over turn self.old.network) }
        ensures ok { IfOk result (λ seen. sent_by_network (taken_over turn self.old.network) sends self.old ≡ (self.new, seen)) }
        ensures err { OnErr result (self.new ≡ self.old) }
    {
        let seen = Seen::of(copied(alloc, &sends)?);
        self.judged.send_down(alloc, sends)?;
        self.network.take_over(turn);
        Ok(seen)
    }
}

// An order, as a command that names a subscriber.
fn order_for(order: NetOrder, supi: &Supi) -> NetCommand
    ensures { result ≡ order_for order supi.now }
{
    match order {
        NetOrder::Authenticate => NetCommand::Authenticate(supi.copy()),
        NetOrder::Deregister => NetCommand::Deregister(supi.copy()),
    }
}
