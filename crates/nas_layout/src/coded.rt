//! Values that stand in messages.
ghost use Rattle.std.specs.Prelude.{◌≡◌, ◌≤◌, ℕ, Some, length};
ghost use Rattle.nas_layout.specs.Coding.{Coding};
ghost use Rattle.nas_layout.specs.Spelled.{spelled};

use arrayvec::ArrayVec;

/// The octets of a value: those that it keeps, or those that were made of it.
#[derive(Drop)]
pub enum Spelled<'a> {
    Kept(&'a [u8]),
    Made(ArrayVec<u8, 64>),
}

impl<'a> Spelled<'a> {
    /// Octets that were made.
    pub fn of_octets(octets: &[u8]) -> Spelled<'a>
        requires { length octets.now ≤ 64 }
        ensures { spelled result ≡ octets.now }
    {
        let mut made = ArrayVec::new();
        made.try_extend_from_slice(octets).unwrap();
        Spelled::Made(made)
    }

    /// The octets in order.
    pub fn as_slice(&self) -> &[u8]
        ensures { result.now ≡ spelled self.now }
    {
        match self {
            Spelled::Kept(octets) => octets,
            Spelled::Made(octets) => octets.as_slice(),
        }
    }
}

/// Values that stand in messages, as a part or as an element.
pub trait Coded {
    /// What its octets read as, and what it is written as.
    ghost coding: { Coding Self };

    /// The most octets that it has.
    ghost most: { ℕ };

    /// The octets that the value is written as, without identifier and length.
    fn octets(&self) -> Spelled<'_>
        ensures value { spelled result ≡ coding.octets self.now }
        ensures limit { length (spelled result) ≤ most };
}

/// Values that are read without memory.
pub trait Readable: Coded {
    /// The value in the octets, or None exactly where no value has them.
    fn read_from(octets: &[u8]) -> Option<Self>
        ensures { result ≡ Self.coding.reading octets.now };

    /// A value that is written is read back. This does nothing: its contract is the law.
    fn is_read_back(&self)
        ensures { Self.coding.reading (Self.coding.octets self.now) ≡ Some self.now };
}
