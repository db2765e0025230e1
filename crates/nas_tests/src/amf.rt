//! A timer whose procedure has ended.

use amf_core::{Amf, AmfConfig, AmfInput, AmfSubscriber, AmfSubscribers, step};
use milenage::{Home, HomeList};
use nas_base::{AmfWord, Moment, Plmn, Supi};
use nas_elements::{Nssai, Slice, Timer3};
use nas_timers::{Durations, TimerId};
use std::alloc::Global;
use std::test::Fail;

fn supi() -> Result<Supi, Fail> {
    Ok(Supi::from_slice(&[0, 0, 1, 0, 1, 0, 0, 0, 0, 0, 0, 0, 0, 0, 1]).ok_or("a SUPI")?)
}

// An AMF with one subscriber.
fn amf(alloc: Global) -> Result<Amf, Fail> {
    let plmn = Plmn::from_codes(&[0, 0, 1], &[0, 1]).ok_or("a network")?;
    let supi = supi()?;
    if !supi.is_of(&plmn) {
        return Err("another network".into());
    }
    let slice = Slice { sst: 1, sd: None };
    let slices = Nssai::from_slice(&[slice]).ok_or("a slice")?;
    let subscribers = AmfSubscribers::from_one(alloc, AmfSubscriber { supi, slices })
        .ok()
        .ok_or("memory")?;
    let config = AmfConfig {
        plmn,
        region: 2,
        set_pointer: 0x0040,
        tmsi: 1,
        nea: 2,
        tac: [0, 0, 1],
        t3512: Timer3 { unit: 0, value: 6 },
        durations: Durations::standard(),
        subscribers,
    };
    Ok(Amf::new(alloc, &config).ok().ok_or("memory")?)
}

#[test]
fn a_timer_finds_no_owner(rt: HostRuntime) -> Result<(), Fail> {
    let alloc = rt.alloc();
    let mut amf = amf(alloc)?;
    let mut home = Home::new(alloc, &HomeList::new(alloc))
        .ok()
        .ok_or("memory")?;
    let expired = AmfInput::Expired {
        supi: supi()?,
        id: TimerId::T3550,
    };
    let outs = step(alloc, &mut amf, &mut home, Moment(0), &[0; 16], &expired)
        .ok()
        .ok_or("refused")?;
    assert!(rt; outs.items.is_empty());
    let view = amf.view(&supi()?).ok_or("a subscriber")?;
    assert!(rt; view.state == AmfWord::Deregistered && view.kept.as_slice().is_empty());
    Ok(())
}
