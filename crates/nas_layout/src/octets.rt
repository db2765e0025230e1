//! Octets as values: one, so many, and any; and ngKSI.

use crate::{Coded, Readable, Spelled};
use nas_base::{Ksi, Octets};

impl Coded for u8 {
    ghost use Rattle.nas_layout.specs.Codings.{octet};

    ghost coding = { octet };

    ghost most = { 1 };

    fn octets(&self) -> Spelled<'_> {
        Spelled::of_octets(&[*self])
    }
}

impl Readable for u8 {
    fn read_from(octets: &[u8]) -> Option<u8> {
        match octets {
            [octet, ..] => Some(*octet),
            [] => Some(0),
        }
    }

    fn is_read_back(&self) {}
}

impl Coded for [u8; 2] {
    ghost use Rattle.nas_layout.specs.Codings.{octets};

    ghost coding = { octets 2 };

    ghost most = { 2 };

    fn octets(&self) -> Spelled<'_> {
        Spelled::Kept(self)
    }
}

impl Readable for [u8; 2] {
    fn read_from(octets: &[u8]) -> Option<[u8; 2]> {
        octets.try_into().ok()
    }

    fn is_read_back(&self) {}
}

impl Coded for [u8; 14] {
    ghost use Rattle.nas_layout.specs.Codings.{octets};

    ghost coding = { octets 14 };

    ghost most = { 14 };

    fn octets(&self) -> Spelled<'_> {
        Spelled::Kept(self)
    }
}

impl Readable for [u8; 14] {
    fn read_from(octets: &[u8]) -> Option<[u8; 14]> {
        octets.try_into().ok()
    }

    fn is_read_back(&self) {}
}

impl Coded for [u8; 16] {
    ghost use Rattle.nas_layout.specs.Codings.{octets};

    ghost coding = { octets 16 };

    ghost most = { 16 };

    fn octets(&self) -> Spelled<'_> {
        Spelled::Kept(self)
    }
}

impl Readable for [u8; 16] {
    fn read_from(octets: &[u8]) -> Option<[u8; 16]> {
        octets.try_into().ok()
    }

    fn is_read_back(&self) {}
}

impl Coded for Octets {
    ghost use Rattle.nas_layout.specs.Codings.{container};

    ghost coding = { container };

    ghost most = { 4100 };

    fn octets(&self) -> Spelled<'_> {
        Spelled::Kept(self.as_slice())
    }
}

impl Coded for Ksi {
    ghost use Rattle.nas_layout.specs.Codings.{ksi};

    ghost coding = { ksi };

    ghost most = { 1 };

    fn octets(&self) -> Spelled<'_> {
        Spelled::of_octets(&[self.0])
    }
}

impl Readable for Ksi {
    fn read_from(octets: &[u8]) -> Option<Ksi> {
        match octets {
            [octet, ..] => Some(Ksi(*octet % 8)),
            [] => Some(Ksi(0)),
        }
    }

    fn is_read_back(&self) {
        let _ksi = self.0;
    }
}
