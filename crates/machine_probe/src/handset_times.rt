//! A handset's steps, done often, for a clock outside.

ghost use Rattle.std.specs.Prelude.{◌≤◌};

use crate::handset_config::{K, OPC, config, standard_capability};
use key_chain::{kamf, kausf, kseaf, nas_keys};
use milenage::f2345;
use nas_base::{Dir, Kind, Ksi, Octets, Writer};
use nas_elements::Algs;
use nas_handset::{Handset, UeCommand};
use nas_security::{Challenge, Context, Sends, protect};
use probe_words::{Refusal, kept, octets, sum_of};
use std::alloc::Global;
use ue_mm::HandsetConfig;

/// The sequence number and RAND of TS 35.208 test set 1, and below their SQN XOR AK.
pub const SQN: u64 = 0xff9b_b4d0_b607;

pub const RAND: [u8; 16] = [
    0x23, 0x55, 0x3c, 0xbe, 0x96, 0x37, 0xa8, 0x9d, 0x21, 0x8a, 0xe6, 0x4d, 0xae, 0x47, 0xbf, 0x35,
];

const HIDDEN: [u8; 6] = [0x55, 0xf3, 0x28, 0xb4, 0x35, 0x77];

// The challenge of these, a command for 128-NEA2 and 128-NIA2 that asks for the whole request, and an accept with a 5G-GUTI.
const CHALLENGE: &str =
    "7e0056000200002123553cbe9637a89d218ae64dae47bf35201055f328b43577b9b94a9ffac354dfafb3";

const COMMAND: &str = "7e005d220002a020360102";

const ACCEPT: &str =
    "7e0042010177000bf200f1100200400000000154070000f11000000115020101500200005e0106";

const LONGEST: usize = 4089;

// What the network sends in a registration, in order.
#[derive(Drop)]
struct Downlinks {
    challenge: Octets,
    command: Octets,
    accept: Octets,
}

/// Registers a handset anew so often.
pub fn registrations(alloc: Global, times: u32) -> Result<u64, Refusal> {
    let config = config(SQN - 1, standard_capability()?)?;
    let downlinks = make_downlinks(alloc, &config)?;
    let mut sum = 0u64;
    for _ in 0..times {
        let (_, more) = registered(alloc, &config, &downlinks)?;
        sum = sum.wrapping_add(more);
    }
    Ok(sum)
}

/// Delivers the accept so often again to a handset that took it: its MAC is that of a count that is gone.
pub fn discarded(alloc: Global, times: u32) -> Result<u64, Refusal> {
    let config = config(SQN - 1, standard_capability()?)?;
    let downlinks = make_downlinks(alloc, &config)?;
    let (mut handset, mut sum) = registered(alloc, &config, &downlinks)?;
    for _ in 0..times {
        sum = sum.wrapping_add(delivered(alloc, &mut handset, &downlinks.accept)?);
    }
    Ok(sum)
}

// A handset that registered, and a sum of what it sent.
fn registered(
    alloc: Global,
    config: &HandsetConfig,
    downlinks: &Downlinks,
) -> Result<(Handset, u64), Refusal> {
    let mut handset = Handset::new(alloc, config)?;
    let first = sum_sent(&requested(alloc, &mut handset)?);
    let second = delivered(alloc, &mut handset, &downlinks.challenge)?;
    let third = delivered(alloc, &mut handset, &downlinks.command)?;
    let fourth = delivered(alloc, &mut handset, &downlinks.accept)?;
    let sum = first.wrapping_add(second).wrapping_add(third);
    Ok((handset, sum.wrapping_add(fourth)))
}

/// The request of a handset that was just made.
pub fn requested(alloc: Global, handset: &mut Handset) -> Result<Sends, Refusal> {
    match handset.command(alloc, &UeCommand::Register(Kind::Initial)) {
        Ok(sends) => Ok(sends),
        Err(_) => Err(Refusal::Memory),
    }
}

// Delivers a message, and answers a sum of what was sent.
fn delivered(alloc: Global, handset: &mut Handset, octets: &Octets) -> Result<u64, Refusal> {
    let delivery = handset.deliver(alloc, octets.as_slice())?;
    Ok(sum_sent(&delivery.sends))
}

/// A sum of what was sent.
pub fn sum_sent(sends: &Sends) -> u64 {
    let mut sum = 0u64;
    for send in sends.as_slice() {
        sum = sum.wrapping_add(sum_of(send.octets.as_slice()));
    }
    sum
}

fn make_downlinks(alloc: Global, config: &HandsetConfig) -> Result<Downlinks, Refusal> {
    let mut network = context(config);
    Ok(Downlinks {
        challenge: kept(alloc, &octets(alloc, CHALLENGE)?)?,
        command: framed(alloc, &mut network, 3, COMMAND)?,
        accept: framed(alloc, &mut network, 2, ACCEPT)?,
    })
}

// The network's context of the challenge (TS 33.501 Annex A).
fn context(config: &HandsetConfig) -> Context {
    let made = f2345(&K, &OPC, &RAND);
    let kausf = kausf(&made.ck, &made.ik, &config.plmn, &HIDDEN);
    let kamf = kamf(&kseaf(&kausf, &config.plmn), &config.supi, &[0, 0]);
    Context {
        challenge: Challenge {
            sqn: SQN,
            rand: RAND,
        },
        ksi: Ksi(0),
        kamf,
        algs: Algs { nea: 2, nia: 2 },
        keys: nas_keys(&kamf, 2, 2),
        up: 0,
        down: 0,
    }
}

// The frame of a plain message.
fn framed(alloc: Global, network: &mut Context, header: u8, text: &str) -> Result<Octets, Refusal>
    requires { (1 ≤ header) × (header ≤ 4) }
{
    let plain = octets(alloc, text)?;
    if plain.len() > LONGEST {
        return Err(Refusal::Unreadable);
    }
    let mut out = Writer::new();
    match protect(network, Dir::Down, header, &plain, &mut out) {
        Ok(_) => kept(alloc, out.octets()),
        Err(_) => Err(Refusal::Unreadable),
    }
}
