//! A network: its AMF and its home network with the timers that run, in moments that are told (TS 24.501 clause 5, TS 33.102 clause
//! 6.3).
#![tactic(auto)]

mod beginning;
mod command;
mod config;
pub mod laws;
mod network;
mod ticks;
mod timers;
mod turn;

pub use crate::command::{NetCommand, NetDelivery, NetRefusal};
pub use crate::config::{
    NetConfig, Subscriber, Subscribers, is_for_5g, is_pool_size, is_subscriber, pool_fits,
};
pub use crate::network::Network;
pub use crate::turn::NetTurn;
