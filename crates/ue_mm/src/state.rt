//! The states of a handset's 5GMM.
ghost use Rattle.std.specs.Prelude.{◌≡◌, IfOk, option_map};
ghost use Rattle.ue_mm.specs.State.{first, is_registered, state_of, view_of, word_of};
ghost use Rattle.ue_mm.specs.declared.common.Pending.{Pending};

use crate::procedures::{Deregistration, Phase, Registration, Service, copied};
use crate::{Common, HandsetConfig, Pending, UeView};
use nas_base::{Memory, MmWord};
use nas_security::Challenge;
use std::alloc::Global;

/// A handset's 5GMM in one of its states, with the procedure that is open in it (TS 24.501 clause 5.1.3.2.1).
#[derive(Drop)]
pub enum UeMm {
    Deregistered(Common),
    Registering(Common, Registration),
    Registered(Common),
    Serving(Common, Service),
    Deregistering(Common, Deregistration),
}

impl UeMm {
    /// A handset that was just made: Deregistered and idle.
    pub fn new(config: &HandsetConfig) -> UeMm
        ensures { state_of result ≡ first config.now }
    {
        UeMm::Deregistered(Common {
            config: config.copy(),
            connected: false,
            secure: false,
            guti: None,
            current: None,
            pending: None,
            stored: None,
            sqn: config.sqn,
        })
    }

    /// An equal value.
    ///
    /// # Errors
    ///
    /// `Memory`.
    pub fn copy(&self, _alloc: Global) -> Result<UeMm, Memory>
        ensures { IfOk result (λ copy. copy ≡ self.now) }
    {
        let (common, phase) = self.parts();
        Ok(UeMm::of(common, phase))
    }

    /// What can be seen of it.
    pub fn view(&self) -> UeView
        ensures { result ≡ view_of (state_of self.now) }
    {
        let common = self.common();
        let state = self.word();
        UeView {
            state,
            connected: common.connected,
            secure: common.secure,
            registered: is_registered(state),
            guti: copied(&common.guti),
            current: common.current,
            pending: challenge_of(&common.pending),
            sqn_ms: common.sqn,
        }
    }

    // What it has in every state.
    fn common(&self) -> &Common
        ensures { result.now ≡ (state_of self.now).common }
    {
        match self {
            UeMm::Deregistered(common)
            | UeMm::Registering(common, _)
            | UeMm::Registered(common)
            | UeMm::Serving(common, _)
            | UeMm::Deregistering(common, _) => common,
        }
    }

    // Its word.
    fn word(&self) -> MmWord
        ensures { result ≡ word_of (state_of self.now).phase }
    {
        match self {
            UeMm::Deregistered(_) => MmWord::Deregistered,
            UeMm::Registering(_, procedure) => procedure.word(),
            UeMm::Registered(_) => MmWord::Registered,
            UeMm::Serving(_, _) => MmWord::Serving,
            UeMm::Deregistering(_, _) => MmWord::Deregistering,
        }
    }

    // Equal parts: what it has in every state, and which state it is.
    pub(crate) fn parts(&self) -> (Common, Phase)
        ensures { (record { common = result.0; phase = result.1 }) ≡ state_of self.now }
    {
        match self {
            UeMm::Deregistered(common) => (common.copy(), Phase::Deregistered),
            UeMm::Registering(common, procedure) => {
                (common.copy(), Phase::Registering(procedure.copy()))
            }
            UeMm::Registered(common) => (common.copy(), Phase::Registered),
            UeMm::Serving(common, procedure) => (common.copy(), Phase::Serving(procedure.copy())),
            UeMm::Deregistering(common, procedure) => {
                (common.copy(), Phase::Deregistering(procedure.copy()))
            }
        }
    }

    // The value of these parts.
    pub(crate) fn of(common: Common, phase: Phase) -> UeMm
        ensures { state_of result ≡ record { common = common; phase = phase } }
    {
        match phase {
            Phase::Deregistered => UeMm::Deregistered(common),
            Phase::Registering(procedure) => UeMm::Registering(common, procedure),
            Phase::Registered => UeMm::Registered(common),
            Phase::Serving(procedure) => UeMm::Serving(common, procedure),
            Phase::Deregistering(procedure) => UeMm::Deregistering(common, procedure),
        }
    }
}

// Whether a handset in this state is registered, as far as it knows.
fn is_registered(word: MmWord) -> bool
    ensures { result ≡ is_registered word }
{
    match word {
        MmWord::RegisteringAgain | MmWord::Registered | MmWord::Serving => true,
        MmWord::Deregistered | MmWord::RegisteringNew | MmWord::Deregistering => false,
    }
}

// The challenge of a pending key.
fn challenge_of(pending: &Option<Pending>) -> Option<Challenge>
    ensures { result ≡ option_map (λ (p : Pending). p.challenge) pending.now }
{
    match pending {
        Some(pending) => Some(pending.challenge),
        None => None,
    }
}
