//! A home network over the subscriber of set 1 of TS 35.208 clause 4.3.
ghost use Rattle.std.specs.Prelude.{◌<◌, ◌^◌};

use milenage::{Home, HomeEntry, HomeList, HomeListRefusal, HomeRefusal, ResyncRefusal};
use nas_base::Supi;
use std::alloc::Global;

const K: u128 = 0x465b_5ce8_b199_b49f_aa5f_0a2e_e238_a6bc;

const OPC: u128 = 0xcd63_cb71_954a_9f4e_48a5_994e_37a0_2baf;

const RAND: u128 = 0x2355_3cbe_9637_a89d_218a_e64d_ae47_bf35;

// SQN_MS ff9bb4d0b607 under AK, and MAC-S, which is OpenSSL's, by the same formulas.
const AUTS: [u8; 14] = [
    0xba, 0x85, 0x3f, 0x3c, 0x12, 0x3c, 0xcf, 0x44, 0xe9, 0x35, 0x96, 0xe3, 0x55, 0xc6,
];

// The SUPI with these last two digits.
fn supi(last: u8) -> Option<Supi> {
    let mut digits = [0; 15];
    digits[13] = last / 10 % 10;
    digits[14] = last % 10;
    Supi::from_slice(&digits)
}

// Whether a list takes a subscriber of that SUPI, or why not.
fn pushed(list: &mut HomeList, alloc: Global, last: u8, sqn: u64) -> Result<(), HomeListRefusal>
    requires { sqn < 2 ^ 48 }
{
    let Some(supi) = supi(last) else {
        return Err(HomeListRefusal::Memory);
    };
    let subscriber = HomeEntry {
        supi,
        k: K.to_be_bytes(),
        opc: OPC.to_be_bytes(),
        field: [0xb9, 0xb9],
        sqn,
    };
    list.push(alloc, subscriber)
}

// A home network of the subscribers 1 and 2, with these numbers.
fn home(alloc: Global, first: u64, second: u64) -> Option<Home>
    requires first { first < 2 ^ 48 }
    requires second { second < 2 ^ 48 }
{
    let mut list = HomeList::new(alloc);
    pushed(&mut list, alloc, 1, first).ok()?;
    pushed(&mut list, alloc, 2, second).ok()?;
    Home::new(alloc, &list).ok()
}

// The number of a challenge, or why there is none.
fn challenged(home: &mut Home, last: u8) -> Result<u64, HomeRefusal> {
    let Some(supi) = supi(last) else {
        return Err(HomeRefusal::Unknown);
    };
    Ok(home.challenge(&supi, &RAND.to_be_bytes())?.sqn)
}

// What an AUTS does.
fn resynced(home: &mut Home, last: u8, rand: u128, auts: &[u8; 14]) -> Result<(), ResyncRefusal> {
    let Some(supi) = supi(last) else {
        return Err(ResyncRefusal::Unknown);
    };
    home.resync(&supi, &rand.to_be_bytes(), auts)
}

// Whether the numbers of two subscribers rise one by one, and to that of AUTS where they are below it.
fn rise(home: &mut Home) -> bool {
    challenged(home, 1) == Ok(0xff9b_b4d0_b607)
        && challenged(home, 1) == Ok(0xff9b_b4d0_b608)
        && challenged(home, 2) == Ok(6)
        && resynced(home, 2, RAND, &AUTS).is_ok()
        && challenged(home, 2) == Ok(0xff9b_b4d0_b608)
        && resynced(home, 1, RAND, &AUTS).is_ok()
        && challenged(home, 1) == Ok(0xff9b_b4d0_b609)
}

#[test]
fn numbers_rise(rt: HostRuntime) {
    let mut done = false;
    if let Some(mut home) = home(rt.alloc(), 0xff9b_b4d0_b606, 5) {
        if let Ok(mut copy) = home.copy(rt.alloc()) {
            done = rise(&mut home) && challenged(&mut copy, 2) == Ok(6);
        }
    }
    assert!(rt; done);
}

// Whether a SUPI that isn't kept, the last number and a wrong AUTS are refused.
fn refuses(home: &mut Home) -> bool {
    let mut wrong = AUTS;
    wrong[13] ^= 1;
    let want = 0xcf44_e935_96e3_55c6u64.to_be_bytes();
    let got = 0xcf44_e935_96e3_55c7u64.to_be_bytes();
    let sqn = 0xffff_ffff_ffff;
    challenged(home, 3) == Err(HomeRefusal::Unknown)
        && resynced(home, 3, RAND, &AUTS) == Err(ResyncRefusal::Unknown)
        && challenged(home, 1) == Ok(sqn)
        && challenged(home, 1) == Err(HomeRefusal::SqnSpent { sqn })
        && resynced(home, 2, RAND, &wrong) == Err(ResyncRefusal::AutsWrong { want, got })
        && resynced(home, 2, 0, &AUTS).is_err()
        && challenged(home, 2) == Ok(6)
}

// Whether a list takes 64 subscribers, each once, and no more.
fn fills(list: &mut HomeList, alloc: Global) -> bool {
    for last in 0..64 {
        if pushed(list, alloc, last, 0).is_err()
            || pushed(list, alloc, last, 1) != Err(HomeListRefusal::Known)
        {
            return false;
        }
    }
    pushed(list, alloc, 64, 0) == Err(HomeListRefusal::Full)
        && pushed(list, alloc, 63, 0) == Err(HomeListRefusal::Known)
}

#[test]
fn refusals_have_causes(rt: HostRuntime) {
    let mut done = false;
    if let Some(mut home) = home(rt.alloc(), 0xffff_ffff_fffe, 5) {
        done = refuses(&mut home);
    }
    assert!(rt; done);
    assert!(rt; fills(&mut HomeList::new(rt.alloc()), rt.alloc()));
}
