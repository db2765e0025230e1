//! The handset of the calls.

use nas_base::{Plmn, Supi};
use nas_elements::Capability;
use nas_timers::Durations;
use probe_words::{Refusal, exactly};
use ue_mm::HandsetConfig;

/// K and OPc of TS 35.208 test set 1.
pub const K: [u8; 16] = [
    0x46, 0x5b, 0x5c, 0xe8, 0xb1, 0x99, 0xb4, 0x9f, 0xaa, 0x5f, 0x0a, 0x2e, 0xe2, 0x38, 0xa6, 0xbc,
];

pub const OPC: [u8; 16] = [
    0xcd, 0x63, 0xcb, 0x71, 0x95, 0x4a, 0x9f, 0x4e, 0x48, 0xa5, 0x99, 0x4e, 0x37, 0xa0, 0x2b, 0xaf,
];

/// A sequence number in hex.
pub fn sequence_number(word: &str) -> Result<u64, Refusal> {
    let [a, b, c, d, e, f] = exactly::<6>(word)?;
    Ok(u64::from_be_bytes([0, 0, a, b, c, d, e, f]))
}

/// The handset of the calls, with this SQN_MS and this capability. It is unreadable where SQN_MS isn't below 2^48.
pub fn config(sqn: u64, capability: Capability) -> Result<HandsetConfig, Refusal> {
    let plmn = Plmn::from_digits(&[0, 0, 1, 0, 1]).ok_or(Refusal::Unreadable)?;
    let supi = Supi::from_slice(&[0, 0, 1, 0, 1, 0, 0, 0, 0, 0, 0, 0, 0, 0, 1]).ok_or(
        Refusal::Unreadable,
    )?;
    if sqn >= 1 << 48 || !supi.is_of(&plmn) {
        return Err(Refusal::Unreadable);
    }
    Ok(HandsetConfig {
        supi,
        plmn,
        k: K,
        opc: OPC,
        sqn,
        capability,
        durations: Durations::standard(),
    })
}

/// What the handset of the calls is capable of where nothing is said: 128-NEA2 and 128-NIA2.
pub fn standard_capability() -> Result<Capability, Refusal> {
    Capability::from_slice(&[0xa0, 0x20]).ok_or(Refusal::Unreadable)
}
