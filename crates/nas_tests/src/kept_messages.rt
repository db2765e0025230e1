//! Messages that are kept.

use nas_base::{Count, Octets, Supi};
use nas_security::{Challenge, Pass, Send, Sends};
use std::alloc::Global;

// A message of a handset, protected.
fn message(alloc: Global) -> Option<Send> {
    let challenge = Challenge {
        sqn: 0xff9b_b4d0_b607,
        rand: [7; 16],
    };
    let supi = Supi::from_slice(&[0, 0, 1, 0, 1, 0, 0, 0, 0, 0, 0, 0, 0, 0, 2])?;
    let pass = Pass {
        supi,
        challenge,
        count: Count(3),
    };
    Some(Send {
        link: 1,
        fresh: true,
        octets: Octets::copy(alloc, &[0x7e, 0x00, 0x43]).ok()?,
        pass: Some(pass),
    })
}

// Whether a copy of a message is kept as it is.
fn keeps(sends: &mut Sends, alloc: Global, message: &Send) -> bool {
    let Ok(copy) = message.copy(alloc) else {
        return false;
    };
    if sends.push(alloc, copy).is_err() {
        return false;
    }
    match sends.as_slice() {
        [kept] => {
            kept.link == message.link
                && kept.fresh == message.fresh
                && kept.octets.as_slice() == message.octets.as_slice()
                && kept.pass == message.pass
        }
        _ => false,
    }
}

#[test]
fn keeps_messages(rt: HostRuntime) {
    let mut done = false;
    if let Some(message) = message(rt.alloc()) {
        done = keeps(&mut Sends::new(rt.alloc()), rt.alloc(), &message);
    }
    assert!(rt; done);
}
