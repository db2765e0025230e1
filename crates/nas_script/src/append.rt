//! Texts that grow.
ghost use Rattle.std.specs.Prelude.{◌≡◌, ◌++◌, OnOk};

use nas_base::Memory;

/// Appends octets to a text.
pub fn append(text: &mut Vec<u8>, octets: &[u8]) -> Result<(), Memory>
    ensures { OnOk result (text.new.items ≡ text.old.items ++ octets.now) }
{
    match text.extend_from_slice(octets) {
        Ok(()) => Ok(()),
        Err(_) => Err(Memory),
    }
}
