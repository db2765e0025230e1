//! Reading octets.
ghost use Rattle.std.specs.Prelude.{◌≡◌};
ghost use Rattle.nas_base.specs.Reading.{Gives, halves_at, lv_at, lve_at, octets_at};

use byteorder::{BigEndian, ByteOrder};
use std::marker::Model;

/// Too few octets are left: at the place `at`, counted from 0, `need` are wanted.
#[derive(Clone, Copy, Debug, PartialEq, Eq)]
pub struct Short {
    pub at: usize,
    pub need: usize,
}

/// Reads octets from left to right. It borrows them, and what it answers lives as long as they do.
#[derive(Drop)]
pub struct Reader<'a> {
    octets: &'a [u8],
    at: usize,
}

impl<'a> Model for Reader<'a> {
    ghost use Rattle.std.specs.Prelude.{◌≤◌, length, drop};
    ghost use Rattle.nas_base.specs.Reading.{Place};

    ghost Value = { Place };

    ghost view = { λ r. record { at = r.at; left = drop r.at r.octets.now } };

    ghost invariant = { λ r. r.at ≤ length r.octets.now };
}

impl<'a> Reader<'a> {
    /// A reader that stands at octet 0.
    pub fn new(octets: &'a [u8]) -> Reader<'a>
        ensures { result ≡ record { at = 0; left = octets.now } }
    {
        Reader { octets, at: 0 }
    }

    /// Where it stands, counted from 0.
    pub fn place(&self) -> usize
        ensures { result ≡ self.now.at }
    {
        self.at
    }

    /// The octets that are left, none of which is taken.
    pub fn left(&self) -> &'a [u8]
        ensures { result.now ≡ self.now.left }
    {
        &self.octets[self.at..]
    }

    /// The next `n` octets.
    ///
    /// # Errors
    ///
    /// `Short` where fewer are left, and only there. No octet is taken then; nor is one at the other calls' `Short`.
    pub fn take(&mut self, n: usize) -> Result<&'a [u8], Short>
        ensures { Gives (λ v. v.now) result self.old self.new (octets_at n self.old) }
    {
        let left = self.octets.len() - self.at;
        if left < n {
            return Err(Short {
                at: self.at,
                need: n,
            });
        }
        let start = self.at;
        self.at += n;
        Ok(&self.octets[start..start + n])
    }

    /// The next octet in two halves: bits 1 to 4, then bits 5 to 8.
    ///
    /// # Errors
    ///
    /// `Short` where no octet is left; `need` is 1.
    pub fn half(&mut self) -> Result<(u8, u8), Short>
        ensures { Gives (λ v. v) result self.old self.new (halves_at self.old) }
    {
        let octet = self.take(1)?[0];
        Ok((octet % 16, octet / 16))
    }

    /// A value behind its length of one octet (LV, TS 24.007 clause 11.2.1.1).
    ///
    /// # Errors
    ///
    /// `Short` where the length is cut, then `need` is 1, or the value is, then `need` counts both.
    pub fn lv(&mut self) -> Result<&'a [u8], Short>
        ensures { Gives (λ v. v.now) result self.old self.new (lv_at self.old) }
    {
        let left = &self.octets[self.at..];
        if left.is_empty() {
            return Err(Short {
                at: self.at,
                need: 1,
            });
        }
        let size = left[0] as usize;
        Ok(&self.take(1 + size)?[1..])
    }

    /// A value behind its length of two octets (LV-E, TS 24.007 clause 11.2.1.1).
    ///
    /// # Errors
    ///
    /// `Short` where the length is cut, then `need` is 2, or the value is, then `need` counts both.
    pub fn lve(&mut self) -> Result<&'a [u8], Short>
        ensures { Gives (λ v. v.now) result self.old self.new (lve_at self.old) }
    {
        let left = &self.octets[self.at..];
        if left.len() < 2 {
            return Err(Short {
                at: self.at,
                need: 2,
            });
        }
        let size = BigEndian::read_u16(left) as usize;
        Ok(&self.take(2 + size)?[2..])
    }
}
