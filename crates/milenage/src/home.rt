//! What a home network keeps of its subscribers, and its challenges (TS 33.102 clauses 6.3.2 and 6.3.5).
ghost use Rattle.std.specs.Prelude.{◌≡◌, IfOk, IfSome, true};
ghost use Rattle.milenage.specs.Octets.{◌⊕◌, part};
ghost use Rattle.milenage.specs.Milenage.{f5_star};
ghost use Rattle.milenage.specs.Checking.{opened};
ghost use Rattle.milenage.specs.Home.{challenge_of, challenged, is_sqn, resync_of, resynced, wanted_mac_s};

use crate::octets::{part, sqn_number, xor};
use crate::{HomeList, Vector, f1_star, f5_star, make_vector};
use nas_base::{Memory, Supi};
use std::alloc::Global;
use std::cmp::max;
use std::marker::Model;

// The greatest sequence number of 48 bits.
const LAST_SQN: u64 = 0xffff_ffff_ffff;

/// Why there is no challenge.
#[derive(Clone, Copy, Debug, PartialEq, Eq)]
pub enum HomeRefusal {
    /// The SUPI isn't kept.
    Unknown,
    /// SQN_HE is the last sequence number, 2^48 - 1.
    SqnSpent { sqn: u64 },
}

/// Why an AUTS changes nothing.
#[derive(Clone, Copy, Debug, PartialEq, Eq)]
pub enum ResyncRefusal {
    /// The SUPI isn't kept.
    Unknown,
    /// AUTS has another MAC-S than the one of the subscriber's keys.
    AutsWrong { want: [u8; 8], got: [u8; 8] },
}

/// What a home network keeps of its subscribers: K, OPc, AMF field and SQN_HE of each SUPI.
#[derive(Drop)]
pub struct Home {
    subscribers: HomeList,
}

impl Model for Home {
    ghost use Rattle.std.specs.Prelude.{List};
    ghost use Rattle.milenage.specs.Home.{HomeRecord};

    ghost Value = { List HomeRecord };

    ghost view = { λ h. h.subscribers };
}

impl Home {
    /// The home network of these subscribers.
    ///
    /// # Errors
    ///
    /// `Memory`.
    pub fn new(alloc: Global, list: &HomeList) -> Result<Home, Memory>
        ensures { IfOk result (λ home. home ≡ list.now) }
    {
        let subscribers = list.copy(alloc)?;
        Ok(Home { subscribers })
    }

    /// An equal value.
    ///
    /// # Errors
    ///
    /// `Memory`.
    pub fn copy(&self, alloc: Global) -> Result<Home, Memory>
        ensures { IfOk result (λ home. home ≡ self.now) }
    {
        let subscribers = self.subscribers.copy(alloc)?;
        Ok(Home { subscribers })
    }

    /// The vector of a challenge with this RAND. Its sequence number is the one behind SQN_HE, which then is it.
    ///
    /// # Errors
    ///
    /// `Unknown` exactly where the SUPI isn't kept, `SqnSpent` exactly where SQN_HE is 2^48 - 1. Nothing has changed then.
    #[tactic(auto, unfolding(crate::specs::Home::challenge_of, crate::specs::Home::challenged, nas_base::specs::Branches::chosen, nas_base::specs::Branches::per))]
    pub fn challenge(&mut self, supi: &Supi, rand: &[u8; 16]) -> Result<Vector, HomeRefusal>
        ensures answer { result ≡ challenge_of supi.now rand.now self.old }
        ensures home { self.new ≡ challenged supi.now rand.now self.old }
    {
        let Some(subscriber) = self.subscribers.find(supi) else {
            return Err(HomeRefusal::Unknown);
        };
        if subscriber.sqn >= LAST_SQN {
            return Err(HomeRefusal::SqnSpent {
                sqn: subscriber.sqn,
            });
        }
        let sqn = subscriber.sqn + 1;
        let vector = make_vector(&subscriber.k, &subscriber.opc, rand, sqn, &subscriber.field);
        self.subscribers.set_sqn(supi, sqn);
        Ok(vector)
    }

    /// The handset's answer AUTS to the challenge with this RAND: SQN_HE is afterwards the greater of itself and of SQN_MS, which
    /// AUTS tells.
    ///
    /// # Errors
    ///
    /// `Unknown` exactly where the SUPI isn't kept, `AutsWrong` exactly where MAC-S isn't the one of the subscriber's keys, with
    /// both. Nothing has changed then.
    #[tactic(auto, unfolding(crate::specs::Home::resync_of, crate::specs::Home::resynced, nas_base::specs::Branches::chosen, nas_base::specs::Branches::per))]
    pub fn resync(
        &mut self,
        supi: &Supi,
        rand: &[u8; 16],
        auts: &[u8; 14],
    ) -> Result<(), ResyncRefusal>
        ensures answer { result ≡ resync_of supi.now rand.now auts.now self.old }
        ensures home { self.new ≡ resynced supi.now rand.now auts.now self.old }
    {
        let Some(subscriber) = self.subscribers.find(supi) else {
            return Err(ResyncRefusal::Unknown);
        };
        let Some(sqn_ms) = opened(&subscriber.k, &subscriber.opc, rand, auts) else {
            return Err(ResyncRefusal::AutsWrong {
                want: wanted_mac_s(&subscriber.k, &subscriber.opc, rand, auts),
                got: part(6, auts),
            });
        };
        let greater = max(subscriber.sqn, sqn_ms);
        self.subscribers.set_sqn(supi, greater);
        Ok(())
    }
}

// SQN_MS of AUTS, where its MAC-S is the one of these keys.
#[tactic(auto, unfolding(crate::specs::Checking::opened))]
fn opened(k: &[u8; 16], opc: &[u8; 16], rand: &[u8; 16], auts: &[u8; 14]) -> Option<u64>
    ensures value { result ≡ opened k.now opc.now rand.now auts.now }
    ensures limit { IfSome result (λ sqn. is_sqn sqn ≡ true) }
{
    if wanted_mac_s(k, opc, rand, auts) != part(6, auts) {
        return None;
    }
    Some(sqn_number(&sqn_in(k, opc, rand, auts)))
}

// The MAC-S that AUTS must have.
fn wanted_mac_s(k: &[u8; 16], opc: &[u8; 16], rand: &[u8; 16], auts: &[u8; 14]) -> [u8; 8]
    ensures { result ≡ wanted_mac_s k.now opc.now rand.now auts.now }
{
    f1_star(k, opc, rand, &sqn_in(k, opc, rand, auts), &[0, 0])
}

// SQN_MS in AUTS, which AK of f5* uncovers.
fn sqn_in(k: &[u8; 16], opc: &[u8; 16], rand: &[u8; 16], auts: &[u8; 14]) -> [u8; 6]
    ensures { result ≡ part 0 6 auts.now ⊕ f5_star k.now opc.now rand.now }
{
    xor(&part(0, auts), &f5_star(k, opc, rand))
}
