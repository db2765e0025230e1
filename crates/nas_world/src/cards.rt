//! The keys of subscribers.
ghost use Rattle.std.specs.Prelude.{◌≡◌, map, IfOk};
ghost use Rattle.nas_world.specs.Cards.{card_of};

use nas_base::{Memory, Supi};
use nas_network::Subscriber;
use std::alloc::Global;

/// A subscriber's SUPI, K and OPc, and the AMF field of its vectors (TS 33.102 clause 6.3.2).
#[derive(Drop)]
pub struct Card {
    pub supi: Supi,
    pub k: [u8; 16],
    pub opc: [u8; 16],
    pub field: [u8; 2],
}

impl Card {
    // The keys of a subscriber.
    fn of(subscriber: &Subscriber) -> Card
        ensures { result ≡ card_of subscriber.now }
    {
        Card {
            supi: subscriber.supi.copy(),
            k: subscriber.k,
            opc: subscriber.opc,
            field: subscriber.field,
        }
    }
}

/// The keys of subscribers.
pub fn cards_of(alloc: Global, subscribers: &[Subscriber]) -> Result<Vec<Card>, Memory>
    ensures { IfOk result (λ cards. cards.items ≡ map card_of subscribers.now) }
{
    let mut cards = Vec::new(alloc);
    for subscriber in subscribers {
        if cards.push(Card::of(subscriber)).is_err() {
            return Err(Memory);
        }
    }
    Ok(cards)
}
