//! How the handset names itself, and the identification procedure.
ghost use Rattle.std.specs.Prelude.{◌≡◌, ◌≤◌, OnOk, length};
ghost use Rattle.nas_elements.specs.Identity.{identity_octets};
ghost use Rattle.nas_elements.specs.Suci.{suci_octets};
ghost use Rattle.ue_mm.specs.Identification.{identity_of, identity_requested, ksi_of, renamed, short_identity_of, suci_of};

use crate::HandsetConfig;
use crate::work::Work;
use mm_messages::{IdentityRequest, IdentityResponse, Mm};
use nas_base::mm_cause::PROTOCOL_ERROR_UNSPECIFIED;
use nas_base::{Digits, Ksi, Memory};
use nas_elements::{Guti, Identity, Suci};
use nas_layout::Half;
use nas_security::Context;

// ngKSI 7: no key is available (TS 24.501 clause 9.11.3.32).
const NO_KEY: Ksi = Ksi(7);

// Type of identity SUCI (TS 24.501 clause 9.11.3.3).
const SUCI: Half = Half(1);

/// The handset's SUCI under the null scheme, with routing indicator 0.
pub fn suci_of(config: &HandsetConfig) -> Suci
    ensures value { result ≡ suci_of config.now }
    ensures limit { length (suci_octets result) ≤ 18 }
{
    Suci {
        plmn: config.plmn.copy(),
        routing: Digits::from_slice(&[0]).unwrap(),
        msin: config.supi.msin(&config.plmn),
    }
}

/// The 5G-GUTI, or the SUCI where there is none.
#[tactic(auto, unfolding(nas_base::specs::Branches::per))]
pub fn identity_of(config: &HandsetConfig, guti: &Option<Guti>) -> Identity
    ensures value { result ≡ identity_of config.now guti.now }
    ensures limit { length (identity_octets result) ≤ 18 }
{
    match guti {
        Some(guti) => Identity::Guti(guti.copy()),
        None => Identity::Suci(suci_of(config)),
    }
}

/// The 5G-S-TMSI, or the SUCI where there is none.
#[tactic(auto, unfolding(nas_base::specs::Branches::per))]
pub fn short_identity_of(config: &HandsetConfig, guti: &Option<Guti>) -> Identity
    ensures { result ≡ short_identity_of config.now guti.now }
{
    match guti {
        Some(guti) => Identity::Stmsi(guti.stmsi()),
        None => Identity::Suci(suci_of(config)),
    }
}

/// The ngKSI of the current context, or 7 where there is none.
#[tactic(auto, unfolding(nas_base::specs::Branches::per))]
pub fn ksi_of(current: &Option<Context>) -> Ksi
    ensures { result ≡ ksi_of current.now }
{
    match current {
        Some(context) => context.ksi,
        None => NO_KEY,
    }
}

impl Work {
    /// The network gives the handset another 5G-GUTI.
    pub fn rename(&mut self, guti: &Guti)
        ensures { self.new ≡ renamed guti.now self.old }
    {
        self.common.guti = Some(guti.copy());
    }

    /// IDENTITY REQUEST.
    #[tactic(auto, unfolding(crate::specs::Identification::identity_requested, nas_base::specs::Branches::chosen))]
    pub fn identity_requested(&mut self, request: &IdentityRequest) -> Result<(), Memory>
        ensures { OnOk result (self.new ≡ identity_requested request.now self.old) }
    {
        if request.identity_type == SUCI {
            let identity = Identity::Suci(suci_of(&self.common.config));
            return self.answer(Mm::IdentityResponse(IdentityResponse { identity }));
        }
        self.status(PROTOCOL_ERROR_UNSPECIFIED)
    }
}
