//! The subscribers of a home network.
ghost use Rattle.std.specs.Prelude.{◌≡◌, [], IfOk, option_copied, true};
ghost use Rattle.milenage.specs.Home.{home_record, is_home, is_kept, is_sqn, with_sqn};
ghost use Rattle.milenage.specs.HomeLists.{Pushes};

use nas_base::{Memory, Supi};
use std::alloc::Global;
use std::marker::Model;

/// A subscriber of a home network.
#[derive(Drop)]
pub struct HomeEntry {
    pub supi: Supi,
    pub k: [u8; 16],
    pub opc: [u8; 16],
    /// The AMF field of its vectors.
    pub field: [u8; 2],
    /// SQN_HE, the sequence number of its last challenge, below 2^48.
    pub sqn: u64,
}

impl Model for HomeEntry {
    ghost use Rattle.std.specs.Prelude.{◌≡◌, true};
    ghost use Rattle.milenage.specs.Home.{HomeRecord, is_sqn};

    ghost Value = { HomeRecord };

    ghost view = { λ s. record { supi = s.supi; k = s.k; opc = s.opc; field = s.field; sqn = s.sqn } };

    ghost invariant = { λ s. is_sqn s.sqn ≡ true };
}

/// Subscribers of a home network: at most 64, no two with one SUPI.
#[derive(Drop)]
pub struct HomeList {
    pub items: Vec<HomeEntry>,
}

impl Model for HomeList {
    ghost use Rattle.std.specs.Prelude.{List, ◌≡◌, true};
    ghost use Rattle.milenage.specs.Home.{HomeRecord, is_home};

    ghost Value = { List HomeRecord };

    ghost view = { λ l. l.items.items };

    ghost invariant = { λ l. is_home l.items.items ≡ true };
}

/// Why a subscriber isn't added to a list.
#[derive(Clone, Copy, Debug, PartialEq, Eq)]
pub enum HomeListRefusal {
    /// One of the list has its SUPI.
    Known,
    /// The list has 64 subscribers.
    Full,
    /// There is no memory for it.
    Memory,
}

impl HomeEntry {
    /// An equal value.
    pub fn copy(&self) -> HomeEntry
        ensures { result ≡ self.now }
    {
        HomeEntry {
            supi: self.supi.copy(),
            k: self.k,
            opc: self.opc,
            field: self.field,
            sqn: self.sqn,
        }
    }
}

impl HomeList {
    /// No subscriber.
    pub fn new(alloc: Global) -> HomeList
        ensures { result ≡ [] }
    {
        HomeList {
            items: Vec::new(alloc),
        }
    }

    /// One more subscriber at the end.
    ///
    /// # Errors
    ///
    /// `Known` exactly where the list has its SUPI, else `Full` exactly where it has 64 subscribers, else `Memory` where there is
    /// none. The list is then as it was.
    #[tactic(auto, using(crate::proofs::HomeLemmas::home_pushed))]
    pub fn push(&mut self, _alloc: Global, subscriber: HomeEntry) -> Result<(), HomeListRefusal>
        ensures { Pushes result subscriber self.old self.new }
    {
        if self.contains(&subscriber.supi) {
            return Err(HomeListRefusal::Known);
        }
        if self.items.len() >= 64 {
            return Err(HomeListRefusal::Full);
        }
        match self.items.push(subscriber) {
            Ok(()) => Ok(()),
            Err(_) => Err(HomeListRefusal::Memory),
        }
    }

    /// Whether one of them has this SUPI.
    pub fn contains(&self, supi: &Supi) -> bool
        ensures { result ≡ is_kept supi.now self.now }
    {
        for subscriber in &self.items {
            if subscriber.supi == *supi {
                return true;
            }
        }
        false
    }

    /// An equal list.
    ///
    /// # Errors
    ///
    /// `Memory`.
    pub fn copy(&self, alloc: Global) -> Result<HomeList, Memory>
        ensures { IfOk result (λ list. list ≡ self.now) }
    {
        let items = copies(alloc, self.as_slice())?;
        Ok(HomeList { items })
    }

    /// The subscribers in order.
    pub fn as_slice(&self) -> &[HomeEntry]
        ensures value { result.now ≡ self.now }
        ensures home { is_home result.now ≡ true }
    {
        self.items.as_slice()
    }

    // The subscriber of a SUPI.
    pub(crate) fn find(&self, supi: &Supi) -> Option<&HomeEntry>
        ensures { option_copied result ≡ home_record supi.now self.now }
    {
        for subscriber in &self.items {
            if subscriber.supi == *supi {
                return Some(subscriber);
            }
        }
        None
    }

    // The subscriber of this SUPI has this SQN_HE.
    pub(crate) fn set_sqn(&mut self, supi: &Supi, sqn: u64)
        requires { is_sqn sqn ≡ true }
        ensures { self.new ≡ with_sqn supi.now sqn self.old }
    {
        set_first(self.items.as_mut_slice(), supi, sqn);
    }
}

// Copies of the subscribers.
fn copies(alloc: Global, subscribers: &[HomeEntry]) -> Result<Vec<HomeEntry>, Memory>
    ensures { IfOk result (λ items. items.items ≡ subscribers.now) }
{
    let mut items = Vec::new(alloc);
    for subscriber in subscribers {
        match items.push(subscriber.copy()) {
            Ok(()) => {}
            Err(_) => return Err(Memory),
        }
    }
    Ok(items)
}

// The first of these subscribers that has this SUPI has this SQN_HE.
fn set_first(subscribers: &mut [HomeEntry], supi: &Supi, sqn: u64)
    requires { is_sqn sqn ≡ true }
    ensures { subscribers.new ≡ with_sqn supi.now sqn subscribers.old }
{
    for subscriber in subscribers.iter_mut() {
        if subscriber.supi == *supi {
            subscriber.sqn = sqn;
            return;
        }
    }
}
