//! What holds of every value. These functions do nothing: their contracts are the laws.
ghost use Rattle.std.specs.Prelude.{◌≡◌, Some};
ghost use Rattle.nas_elements.specs.Address.{address_in, address_octets};
ghost use Rattle.nas_elements.specs.Algs.{algs_in, algs_octets};
ghost use Rattle.nas_elements.specs.Ambr.{ambr_in, ambr_octets};
ghost use Rattle.nas_elements.specs.Asi.{asi_in, asi_octets};
ghost use Rattle.nas_elements.specs.Capability.{capability_in};
ghost use Rattle.nas_elements.specs.Dnn.{dnn_in};
ghost use Rattle.nas_elements.specs.Guti.{guti_in, guti_octets, stmsi_in, stmsi_octets};
ghost use Rattle.nas_elements.specs.Identity.{identity_in, identity_octets};
ghost use Rattle.nas_elements.specs.Nssai.{nssai_in, nssai_octets};
ghost use Rattle.nas_elements.specs.Slice.{slice_in, slice_octets};
ghost use Rattle.nas_elements.specs.Status.{status_in, status_octets};
ghost use Rattle.nas_elements.specs.Suci.{suci_in, suci_octets};
ghost use Rattle.nas_elements.specs.TaiList.{tai_list_in};
ghost use Rattle.nas_elements.specs.Timer3.{timer3_in, timer3_octets};
ghost use Rattle.nas_elements.specs.declared.address.Address.TheVariants.{V4, V6, V4V6};

use crate::{
    Address, Algs, Ambr, Asi, Capability, Dnn, Guti, Identity, Nssai, Slice, Status, Stmsi, Suci,
    TaiList, Timer3,
};

/// A capability that is written is read back.
pub fn capability_is_read_back(capability: &Capability)
    ensures { capability_in capability.now ≡ Some capability.now }
{
    let _items = &capability.items;
}

/// A SUCI that is written is read back.
pub fn suci_is_read_back(suci: &Suci)
    ensures { suci_in (suci_octets suci.now) ≡ Some suci.now }
{
    let _mcc = &suci.plmn.mcc;
}

/// A 5G-GUTI that is written is read back.
#[tactic(auto, using(crate::proofs::ReadBack::guti_back))]
pub fn guti_is_read_back(guti: &Guti)
    ensures { guti_in (guti_octets guti.now) ≡ Some guti.now }
{
    let _mcc = &guti.plmn.mcc;
    let _set_pointer = guti.set_pointer;
    let _tmsi = guti.tmsi;
}

/// A 5G-S-TMSI that is written is read back.
#[tactic(auto, using(crate::proofs::ReadBack::stmsi_back))]
pub fn stmsi_is_read_back(stmsi: &Stmsi)
    ensures { stmsi_in (stmsi_octets stmsi.now) ≡ Some stmsi.now }
{
    let _set_pointer = stmsi.set_pointer;
    let _tmsi = stmsi.tmsi;
}

/// An identity that is written is read back.
#[tactic(auto, using(crate::proofs::IdentityFronts::other_identity))]
pub fn identity_is_read_back(identity: &Identity)
    ensures { identity_in (identity_octets identity.now) ≡ Some identity.now }
{
    match identity {
        Identity::Suci(suci) => suci_is_read_back(suci),
        Identity::Guti(guti) => guti_is_read_back(guti),
        Identity::Stmsi(stmsi) => stmsi_is_read_back(stmsi),
        Identity::Other(other) => {
            let _octets = &other.octets;
        }
    }
}

/// Algorithms that are written are read back.
pub fn algs_are_read_back(algs: Algs)
    ensures { algs_in (algs_octets algs) ≡ Some algs }
{}

/// A tracking area identity list that is written is read back.
pub fn tai_list_is_read_back(list: &TaiList)
    ensures { tai_list_in list.now ≡ Some list.now }
{
    let _items = &list.items;
}

/// A timer that is written is read back.
pub fn timer3_is_read_back(timer: Timer3)
    ensures { timer3_in (timer3_octets timer) ≡ Some timer }
{}

/// Additional security information that is written is read back.
pub fn asi_is_read_back(information: Asi)
    ensures { asi_in (asi_octets information) ≡ Some information }
{}

/// A set of sessions that is written is read back.
#[tactic(auto, using(crate::proofs::StatusLemmas::status_read_back))]
pub fn status_is_read_back(status: Status)
    ensures { status_in (status_octets status) ≡ Some status }
{}

/// A DNN that is written is read back.
pub fn dnn_is_read_back(dnn: &Dnn)
    ensures { dnn_in dnn.now ≡ Some dnn.now }
{
    let _items = &dnn.items;
}

/// A list of slices that is written is read back.
#[tactic(auto, using(crate::proofs::NssaiLaws::read_back))]
pub fn nssai_is_read_back(nssai: &Nssai)
    ensures { nssai_in (nssai_octets nssai.now) ≡ Some nssai.now }
{
    let _items = &nssai.items;
}

/// A slice that is written is read back.
pub fn slice_is_read_back(slice: &Slice)
    ensures { slice_in (slice_octets slice.now) ≡ Some slice.now }
{
    let _slice = slice.copy();
}

/// A session AMBR that is written is read back.
#[tactic(auto, using(crate::proofs::AmbrLaws::ambr_back))]
pub fn ambr_is_read_back(ambr: Ambr)
    ensures { ambr_in (ambr_octets ambr) ≡ Some ambr }
{
    let _down = ambr.down;
    let _up = ambr.up;
}

/// A PDU address that is written is read back.
pub fn address_is_read_back(address: &Address)
    ensures { address_in (address_octets address.now) ≡ Some address.now }
{
    match address {
        Address::V4(v4) => v4_is_read_back(v4),
        Address::V6(v6) => v6_is_read_back(v6),
        Address::V4V6(v6, v4) => v4v6_is_read_back(v6, v4),
    }
}

#[tactic(auto, using(crate::proofs::AddressFronts::v4_back))]
fn v4_is_read_back(v4: &[u8; 4])
    ensures { address_in (address_octets (V4 v4.now)) ≡ Some (V4 v4.now) }
{
    let _first = v4[0];
}

#[tactic(auto, using(crate::proofs::AddressFronts::v6_back))]
fn v6_is_read_back(v6: &[u8; 8])
    ensures { address_in (address_octets (V6 v6.now)) ≡ Some (V6 v6.now) }
{
    let _first = v6[0];
}

#[tactic(auto, using(crate::proofs::AddressFronts::v4v6_back))]
fn v4v6_is_read_back(v6: &[u8; 8], v4: &[u8; 4])
    ensures { address_in (address_octets (V4V6 v6.now v4.now)) ≡ Some (V4V6 v6.now v4.now) }
{
    let _first = v6[0];
    let _second = v4[0];
}
