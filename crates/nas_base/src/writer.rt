//! Writing octets.
ghost use Rattle.std.specs.Prelude.{◌≡◌, ◌+◌, ◌<◌, ◌≤◌, ◌^◌, [], ◌++◌, length};
ghost use Rattle.nas_base.specs.Writing.{Fits, Writes, lv, lve};

use arrayvec::ArrayVec;
use byteorder::{BigEndian, ByteOrder};
use std::marker::Model;

const ROOM: usize = 4096;

/// What was to be written doesn't fit: it has `need` octets in all, lengths included, and there is room for `room`.
#[derive(Clone, Copy, Debug, PartialEq, Eq)]
pub struct Full {
    pub need: usize,
    pub room: usize,
}

/// A place for up to 4,096 octets, which lie in the value itself.
#[derive(Drop)]
pub struct Writer {
    items: ArrayVec<u8, 4096>,
}

impl Model for Writer {
    ghost use Rattle.std.specs.Prelude.{ℕ, List, ◌≤◌, length};

    ghost Value = { List ℕ };

    ghost view = { λ w. w.items.items };

    ghost invariant = { λ w. length w.items.items ≤ 4096 };
}

impl Writer {
    /// An empty writer.
    pub fn new() -> Writer
        ensures { result ≡ [] }
    {
        Writer {
            items: ArrayVec::new(),
        }
    }

    /// What was written.
    pub fn octets(&self) -> &[u8]
        ensures value { result.now ≡ self.now }
        ensures limit { length result.now ≤ 4096 }
    {
        self.items.as_slice()
    }

    /// Whether `need` more octets fit.
    ///
    /// # Errors
    ///
    /// `Full` exactly where they don't.
    pub fn fits(&self, need: usize) -> Result<(), Full>
        ensures { Fits need self.now result }
    {
        let room = ROOM - self.items.len();
        if room < need {
            return Err(Full { need, room });
        }
        Ok(())
    }

    /// Writes the octets.
    ///
    /// # Errors
    ///
    /// `Full` where there isn't room for all of them, and only there; none is written then. So at the other calls.
    pub fn put(&mut self, octets: &[u8]) -> Result<(), Full>
        ensures { Writes octets.now self.old self.new result }
    {
        let room = ROOM - self.items.len();
        match self.items.try_extend_from_slice(octets) {
            Ok(()) => Ok(()),
            Err(_) => Err(Full {
                need: octets.len(),
                room,
            }),
        }
    }

    /// Writes the octets behind their length of one octet (LV, TS 24.007 clause 11.2.1.1).
    pub fn lv(&mut self, octets: &[u8]) -> Result<(), Full>
        requires { length octets.now ≤ 255 }
        ensures { Writes (lv octets.now) self.old self.new result }
    {
        self.put_headed(&[octets.len() as u8], octets)
    }

    /// Writes the octets behind their length of two octets (LV-E, TS 24.007 clause 11.2.1.1).
    pub fn lve(&mut self, octets: &[u8]) -> Result<(), Full>
        requires { length octets.now ≤ 65535 }
        ensures { Writes (lve octets.now) self.old self.new result }
    {
        let mut size = [0; 2];
        BigEndian::write_u16(&mut size, octets.len() as u16);
        self.put_headed(&size, octets)
    }

    /// Writes octets behind a head of others, such as an identifier and a length: both or neither.
    ///
    /// # Errors
    ///
    /// `Full` exactly where they don't fit together; nothing is then written.
    pub fn put_headed(&mut self, head: &[u8], octets: &[u8]) -> Result<(), Full>
        requires { length head.now + length octets.now < 2 ^ 32 }
        ensures { Writes (head.now ++ octets.now) self.old self.new result }
    {
        self.fits(head.len() + octets.len())?;
        self.put(head)?;
        self.put(octets)
    }
}
