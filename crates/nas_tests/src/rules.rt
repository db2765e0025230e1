//! That the calls answer where there is memory. What they answer is their contracts'.
use nas_qos::{Rules, apply, read_ops};
use std::alloc::Global;
use std::test::Fail;

// The rule that a session has from its start: rule 1, default, filter 1 in both directions on everything, precedence 255, QFI 6.
const FIRST: &[u8] = &[1, 0, 6, 0x31, 0x31, 1, 1, 255, 6];

#[test]
fn there_is_memory(rt: HostRuntime) -> Result<(), Fail> {
    let alloc = rt.alloc();
    let ops = read_ops(alloc, FIRST)?;
    let copy = ops.copy(alloc)?;
    assert!(rt; copy.equals(&ops));
    let none = Rules::new(alloc);
    let rules = apply(alloc, &none, &copy)?.copy(alloc)?;
    assert!(rt; !rules.equals(&none));
    Ok(())
}
