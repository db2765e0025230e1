//! Dotted addresses.
ghost use Rattle.std.specs.Prelude.{◌≡◌, ◌≤◌, length, option_map};
ghost use Rattle.nas_script.specs.Addresses.{address_in, before_dot, behind_dot, first_part};

use crate::numbers::octet_of;

/// An address of four numbers below 256, with a dot between one and the next.
pub fn address_of(text: &[u8]) -> Option<[u8; 4]>
    ensures { result ≡ address_in text.now }
{
    let first = octet_of(first_part(text))?;
    let text = behind_dot(text)?;
    let second = octet_of(first_part(text))?;
    let text = behind_dot(text)?;
    let third = octet_of(first_part(text))?;
    let fourth = octet_of(behind_dot(text)?)?;
    Some([first, second, third, fourth])
}

// What stands before the first dot.
fn first_part(text: &[u8]) -> &[u8]
    ensures { result.now ≡ first_part text.now }
{
    text.split_at(before_dot(text)).0
}

// What stands behind the first dot.
fn behind_dot(text: &[u8]) -> Option<&[u8]>
    ensures { option_map (λ rest. rest.now) result ≡ behind_dot text.now }
{
    let size = before_dot(text);
    if size < text.len() {
        Some(text.split_at(size + 1).1)
    } else {
        None
    }
}

/// How many octets stand before the first dot.
pub fn before_dot(text: &[u8]) -> usize
    ensures value { result ≡ before_dot text.now }
    ensures limit { result ≤ length text.now }
{
    let mut count = 0;
    for octet in text {
        if *octet == b'.' {
            return count;
        }
        count += 1;
    }
    count
}
