//! The information elements as parts and elements of messages.

use crate::{Coded, Readable, Spelled};
use nas_elements::laws::{
    address_is_read_back, algs_are_read_back, ambr_is_read_back, asi_is_read_back,
    capability_is_read_back, dnn_is_read_back, guti_is_read_back, nssai_is_read_back,
    slice_is_read_back, status_is_read_back, tai_list_is_read_back, timer3_is_read_back,
};
use nas_elements::{
    Address, Algs, Ambr, Asi, Capability, Dnn, Guti, Identity, Nssai, Slice, Status, TaiList,
    Timer3,
};

impl Coded for Address {
    ghost use Rattle.nas_layout.specs.Codings.{address};

    ghost coding = { address };

    ghost most = { 13 };

    fn octets(&self) -> Spelled<'_> {
        Spelled::of_octets(self.octets().as_slice())
    }
}

impl Readable for Address {
    fn read_from(octets: &[u8]) -> Option<Address> {
        Address::read(octets).ok()
    }

    fn is_read_back(&self) {
        address_is_read_back(self)
    }
}

impl Coded for Algs {
    ghost use Rattle.nas_layout.specs.Codings.{algs};

    ghost coding = { algs };

    ghost most = { 1 };

    fn octets(&self) -> Spelled<'_> {
        Spelled::of_octets(&self.octets())
    }
}

impl Readable for Algs {
    fn read_from(octets: &[u8]) -> Option<Algs> {
        Algs::read(octets).ok()
    }

    fn is_read_back(&self) {
        algs_are_read_back(*self)
    }
}

impl Coded for Ambr {
    ghost use Rattle.nas_layout.specs.Codings.{ambr};

    ghost coding = { ambr };

    ghost most = { 6 };

    fn octets(&self) -> Spelled<'_> {
        Spelled::of_octets(&self.octets())
    }
}

impl Readable for Ambr {
    fn read_from(octets: &[u8]) -> Option<Ambr> {
        Ambr::read(octets).ok()
    }

    fn is_read_back(&self) {
        ambr_is_read_back(*self)
    }
}

impl Coded for Asi {
    ghost use Rattle.nas_layout.specs.Codings.{asi};

    ghost coding = { asi };

    ghost most = { 1 };

    fn octets(&self) -> Spelled<'_> {
        Spelled::of_octets(&self.octets())
    }
}

impl Readable for Asi {
    fn read_from(octets: &[u8]) -> Option<Asi> {
        Asi::read(octets).ok()
    }

    fn is_read_back(&self) {
        asi_is_read_back(*self)
    }
}

impl Coded for Capability {
    ghost use Rattle.nas_layout.specs.Codings.{capability};

    ghost coding = { capability };

    ghost most = { 8 };

    fn octets(&self) -> Spelled<'_> {
        Spelled::Kept(self.as_slice())
    }
}

impl Readable for Capability {
    fn read_from(octets: &[u8]) -> Option<Capability> {
        Capability::read(octets).ok()
    }

    fn is_read_back(&self) {
        capability_is_read_back(self)
    }
}

impl Coded for Dnn {
    ghost use Rattle.nas_layout.specs.Codings.{dnn};

    ghost coding = { dnn };

    ghost most = { 100 };

    fn octets(&self) -> Spelled<'_> {
        Spelled::Kept(self.as_slice())
    }
}

impl Readable for Dnn {
    fn read_from(octets: &[u8]) -> Option<Dnn> {
        Dnn::read(octets).ok()
    }

    fn is_read_back(&self) {
        dnn_is_read_back(self)
    }
}

impl Coded for Guti {
    ghost use Rattle.nas_layout.specs.Codings.{guti};

    ghost coding = { guti };

    ghost most = { 11 };

    fn octets(&self) -> Spelled<'_> {
        Spelled::of_octets(self.octets().as_slice())
    }
}

impl Readable for Guti {
    fn read_from(octets: &[u8]) -> Option<Guti> {
        Guti::read(octets).ok()
    }

    fn is_read_back(&self) {
        guti_is_read_back(self)
    }
}

impl Coded for Identity {
    ghost use Rattle.nas_layout.specs.Codings.{identity};

    ghost coding = { identity };

    ghost most = { 4100 };

    fn octets(&self) -> Spelled<'_> {
        match self {
            Identity::Suci(suci) => Spelled::of_octets(suci.octets().as_slice()),
            Identity::Guti(guti) => Spelled::of_octets(guti.octets().as_slice()),
            Identity::Stmsi(stmsi) => Spelled::of_octets(&stmsi.octets()),
            Identity::Other(other) => Spelled::Kept(other.as_slice()),
        }
    }
}

impl Coded for Nssai {
    ghost use Rattle.nas_layout.specs.Codings.{nssai};

    ghost coding = { nssai };

    ghost most = { 40 };

    fn octets(&self) -> Spelled<'_> {
        Spelled::of_octets(self.octets().as_slice())
    }
}

impl Readable for Nssai {
    fn read_from(octets: &[u8]) -> Option<Nssai> {
        Nssai::read(octets).ok()
    }

    fn is_read_back(&self) {
        nssai_is_read_back(self)
    }
}

impl Coded for Slice {
    ghost use Rattle.nas_layout.specs.Codings.{slice};

    ghost coding = { slice };

    ghost most = { 4 };

    fn octets(&self) -> Spelled<'_> {
        Spelled::of_octets(self.octets().as_slice())
    }
}

impl Readable for Slice {
    fn read_from(octets: &[u8]) -> Option<Slice> {
        Slice::read(octets).ok()
    }

    fn is_read_back(&self) {
        slice_is_read_back(self)
    }
}

impl Coded for Status {
    ghost use Rattle.nas_layout.specs.Codings.{status};

    ghost coding = { status };

    ghost most = { 2 };

    fn octets(&self) -> Spelled<'_> {
        Spelled::of_octets(&self.octets())
    }
}

impl Readable for Status {
    fn read_from(octets: &[u8]) -> Option<Status> {
        Status::read(octets).ok()
    }

    fn is_read_back(&self) {
        status_is_read_back(*self)
    }
}

impl Coded for TaiList {
    ghost use Rattle.nas_layout.specs.Codings.{tai_list};

    ghost coding = { tai_list };

    ghost most = { 112 };

    fn octets(&self) -> Spelled<'_> {
        Spelled::Kept(self.as_slice())
    }
}

impl Readable for TaiList {
    fn read_from(octets: &[u8]) -> Option<TaiList> {
        TaiList::read(octets).ok()
    }

    fn is_read_back(&self) {
        tai_list_is_read_back(self)
    }
}

impl Coded for Timer3 {
    ghost use Rattle.nas_layout.specs.Codings.{timer3};

    ghost coding = { timer3 };

    ghost most = { 1 };

    fn octets(&self) -> Spelled<'_> {
        Spelled::of_octets(&self.octets())
    }
}

impl Readable for Timer3 {
    fn read_from(octets: &[u8]) -> Option<Timer3> {
        Timer3::read(octets).ok()
    }

    fn is_read_back(&self) {
        timer3_is_read_back(*self)
    }
}
