//! Whom an identity names.
ghost use Rattle.std.specs.Prelude.{◌≡◌};
ghost use Rattle.amf_core.specs.Naming.{is_kept_for_another, kept_for, named_by_suci, suci_digits};

use crate::work::Work;
use crate::{Amf, Record};
use arrayvec::ArrayVec;
use mm_entity::is_same_supi;
use nas_base::Supi;
use nas_elements::{Guti, Identity, Suci};

/// The digits of the SUPI that a SUCI names: of the network, and the MSIN.
pub fn suci_digits(suci: &Suci) -> ArrayVec<u8, 16>
    ensures { result.items ≡ suci_digits suci.now }
{
    let mut digits = ArrayVec::new();
    digits
        .try_extend_from_slice(suci.plmn.digits().as_slice())
        .unwrap();
    digits.try_extend_from_slice(suci.msin.as_slice()).unwrap();
    digits
}

impl<'a> Work<'a> {
    /// The subscriber that a SUCI names.
    pub fn named_by_suci(&self, suci: &Suci) -> Option<Record>
        ensures { result ≡ named_by_suci suci.now self.now.work }
    {
        self.subscriber(suci_digits(suci).as_slice())
    }

    /// The subscriber that an identity is kept for.
    pub fn kept_for(&self, identity: &Identity) -> Option<Record>
        ensures { result ≡ kept_for identity.now self.now.work }
    {
        match identity {
            Identity::Guti(guti) => self.keeper(guti),
            Identity::Stmsi(stmsi) => self.short_keeper(stmsi),
            Identity::Suci(_) | Identity::Other(_) => None,
        }
    }
}

impl Amf {
    /// Whether a 5G-GUTI is kept for another subscriber than the one of this SUPI. It walks over all records.
    pub fn keeps_for_another(&self, supi: &Supi, guti: &Guti) -> bool
        ensures { result ≡ is_kept_for_another supi.now guti.now self.now.subscribers }
    {
        for record in self.subscribers.as_slice() {
            if !is_same_supi(&record.supi, supi) && record.kept.has(guti) {
                return true;
            }
        }
        false
    }
}
