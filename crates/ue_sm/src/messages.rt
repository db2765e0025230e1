//! Messages as octets.
ghost use Rattle.std.specs.Prelude.{◌≡◌, ◌≤◌, length, IfOk};
ghost use Rattle.nas_qos.specs.Operations.{ops_octets};
ghost use Rattle.sm_messages.specs.Messages.{spelling};

use nas_base::{Memory, Octets, Writer};
use nas_qos::{RuleOps, write_ops};
use sm_messages::{SmFrame, encode_sm};
use std::alloc::Global;

/// A message that isn't too long, spelled.
pub fn spelled(alloc: Global, frame: &SmFrame) -> Result<Octets, Memory>
    requires { length (spelling frame.now) ≤ 4096 }
    ensures { IfOk result (λ octets. octets ≡ spelling frame.now) }
{
    let mut out = Writer::new();
    if encode_sm(frame, &mut out).is_err() {
        unreachable!()
    }
    let Ok(octets) = Octets::copy(alloc, out.octets()) else {
        return Err(Memory);
    };
    Ok(octets)
}

/// Operations on QoS rules as they are written.
pub fn ops_octets(alloc: Global, ops: &RuleOps) -> Result<Octets, Memory>
    ensures value { IfOk result (λ octets. octets ≡ ops_octets ops.now) }
    ensures short { IfOk result (λ octets. length octets ≤ 2048) }
{
    let _items = &ops.items;
    let mut out = Writer::new();
    if write_ops(ops, &mut out).is_err() {
        unreachable!()
    }
    let Ok(octets) = Octets::copy(alloc, out.octets()) else {
        return Err(Memory);
    };
    Ok(octets)
}

/// Equal octets.
pub fn copied(alloc: Global, octets: &Octets) -> Result<Octets, Memory>
    ensures { IfOk result (λ copy. copy ≡ octets.now) }
{
    let Ok(copy) = Octets::copy(alloc, octets.as_slice()) else {
        return Err(Memory);
    };
    Ok(copy)
}
