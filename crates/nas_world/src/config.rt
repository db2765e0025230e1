//! What a world is made of.

use nas_network::NetConfig;
use std::marker::Model;
use ue_mm::HandsetConfig;

/// Both ends: the network with its subscribers, and the handset.
#[derive(Drop)]
pub struct WorldConfig {
    pub net: NetConfig,
    pub handset: HandsetConfig,
}

impl Model for WorldConfig {
    ghost use Rattle.nas_world.specs.Config.{WorldValues};

    ghost Value = { WorldValues };

    ghost view = { λ w. record { net = w.net; handset = w.handset } };
}
