//! All that was sent, with an index of what was sent under protection.
ghost use Rattle.std.specs.Prelude.{◌≡◌, [], ◌∷◌, ◌++◌, List, IfOk, OnOk, OnErr};
ghost use Rattle.nas_security.specs.declared.sends.Send.{Send as Sending};
ghost use Rattle.nas_world.specs.Index.{IsKeyOf, Notes, Says};
ghost use Rattle.nas_world.specs.Logs.{was_sent, with_down, with_up};
ghost use Rattle.nas_world.specs.contracts.sent.SentKeyPartialEq.TheImpl as key;

use crate::SentLog;
use indexmap::IndexSet;
use nas_base::{Memory, Octets};
use nas_security::{Pass, Send, Sends};
use std::alloc::Global;
use std::marker::Model;

/// What a protected message is found by: its subscriber, the challenge of its context, its count, and its octets.
#[derive(PartialEq, Eq, Hash, Drop)]
pub struct SentKey {
    pub supi: Vec<u8>,
    pub sqn: u64,
    pub rand: [u8; 16],
    pub count: u32,
    pub octets: Vec<u8>,
}

/// The two logs, each with the index of its protected messages.
#[derive(Drop)]
pub struct Sent {
    log: SentLog,
    up: IndexSet<SentKey>,
    down: IndexSet<SentKey>,
}

impl Model for Sent {
    ghost use Rattle.nas_world.specs.Index.{Says};
    ghost use Rattle.nas_world.specs.declared.logs.SentLog.{SentLog};
    ghost use Rattle.nas_world.specs.contracts.sent.SentKeyPartialEq.TheImpl as key;

    ghost Value = { SentLog };

    ghost view = { λ s. s.log };

    ghost invariant = { λ s. Says key.ghosts.eq s.up s.log.up × Says key.ghosts.eq s.down s.log.down };
}

impl Sent {
    /// Nothing was sent.
    #[tactic(auto, using(crate::proofs::Index::nothing_says))]
    pub fn new(alloc: Global) -> Sent
        ensures { result ≡ record { up = []; down = [] } }
    {
        Sent {
            log: SentLog {
                up: Sends::new(alloc),
                down: Sends::new(alloc),
            },
            up: IndexSet::new(alloc),
            down: IndexSet::new(alloc),
        }
    }

    /// The two logs.
    pub fn log(&self) -> &SentLog
        ensures { result.now ≡ self.now }
    {
        &self.log
    }

    /// The handset sent messages.
    ///
    /// # Errors
    ///
    /// `Memory`; nothing then changes.
    pub fn add_up(&mut self, alloc: Global, sends: Sends) -> Result<(), Memory>
        ensures ok { OnOk result (self.new ≡ with_up sends self.old) }
        ensures err { OnErr result (self.new ≡ self.old) }
    {
        add(alloc, &mut self.log.up, &mut self.up, sends)
    }

    /// The network sent messages.
    ///
    /// # Errors
    ///
    /// `Memory`; nothing then changes.
    pub fn add_down(&mut self, alloc: Global, sends: Sends) -> Result<(), Memory>
        ensures ok { OnOk result (self.new ≡ with_down sends self.old) }
        ensures err { OnErr result (self.new ≡ self.old) }
    {
        add(alloc, &mut self.log.down, &mut self.down, sends)
    }

    /// Whether the handset sent these octets under this pass. It doesn't walk the log.
    ///
    /// # Errors
    ///
    /// `Memory`.
    pub fn has_up(&self, alloc: Global, pass: &Pass, octets: &Octets) -> Result<bool, Memory>
        ensures { IfOk result (λ sent. sent ≡ was_sent pass.now octets.now self.now.up) }
    {
        let key = key_of(alloc, pass, octets)?;
        Ok(self.up.contains(&key))
    }

    /// Whether the network sent these octets under this pass. It doesn't walk the log.
    ///
    /// # Errors
    ///
    /// `Memory`.
    pub fn has_down(&self, alloc: Global, pass: &Pass, octets: &Octets) -> Result<bool, Memory>
        ensures { IfOk result (λ sent. sent ≡ was_sent pass.now octets.now self.now.down) }
    {
        let key = key_of(alloc, pass, octets)?;
        Ok(self.down.contains(&key))
    }
}

// Messages are logged, all of them or none.
fn add(
    alloc: Global,
    log: &mut Sends,
    index: &mut IndexSet<SentKey>,
    sends: Sends,
) -> Result<(), Memory>
    requires { Says key.ghosts.eq index.old log.old }
    ensures index { Says key.ghosts.eq index.new log.new }
    ensures ok { OnOk result (log.new ≡ log.old ++ sends) }
    ensures err { OnErr result (log.new ≡ log.old) }
{
    let mut found = index_of(alloc, &sends)?;
    let Ok(()) = index.reserve(found.len()) else {
        return Err(Memory);
    };
    join(log, sends)?;
    let Ok(()) = index.append(&mut found) else {
        unreachable!();
    };
    Ok(())
}

// Messages behind those of a log, all of them or none.
fn join(log: &mut Sends, sends: Sends) -> Result<(), Memory>
    ensures ok { OnOk result (log.new ≡ log.old ++ sends) }
    ensures err { OnErr result (log.new ≡ log.old) }
{
    let mut sends = sends;
    match log.items.append(&mut sends.items) {
        Ok(()) => Ok(()),
        Err(_) => Err(Memory),
    }
}

// The index of messages.
fn index_of(alloc: Global, sends: &Sends) -> Result<IndexSet<SentKey>, Memory>
    ensures { IfOk result (λ index. Says key.ghosts.eq index sends.now) }
{
    let mut index = IndexSet::new(alloc);
    for send in sends.as_slice() {
        note(alloc, &mut index, send)?;
    }
    Ok(index)
}

// One message more is found, if it is protected.
fn note(alloc: Global, index: &mut IndexSet<SentKey>, send: &Send) -> Result<(), Memory>
    ensures { OnOk result ((log : List Sending) → Says key.ghosts.eq index.old log → Says key.ghosts.eq index.new (log ++ send.now ∷ [])) }
{
    match &send.pass {
        None => Ok(()),
        Some(pass) => note_protected(alloc, index, pass, &send.octets),
    }
}

// A protected message is found.
fn note_protected(
    alloc: Global,
    index: &mut IndexSet<SentKey>,
    pass: &Pass,
    octets: &Octets,
) -> Result<(), Memory>
    ensures { OnOk result (Notes key.ghosts.eq pass.now octets.now index.old index.new) }
{
    let key = key_of(alloc, pass, octets)?;
    match index.insert(key) {
        Ok(_) => Ok(()),
        Err(_) => Err(Memory),
    }
}

// What a protected message is found by.
fn key_of(alloc: Global, pass: &Pass, octets: &Octets) -> Result<SentKey, Memory>
    ensures { IfOk result (λ key. IsKeyOf key pass.now octets.now) }
{
    let supi = copied(alloc, pass.supi.as_slice())?;
    let octets = copied(alloc, octets.as_slice())?;
    Ok(SentKey {
        supi,
        sqn: pass.challenge.sqn,
        rand: pass.challenge.rand,
        count: pass.count.0,
        octets,
    })
}

// The same octets once more.
fn copied(alloc: Global, octets: &[u8]) -> Result<Vec<u8>, Memory>
    ensures { IfOk result (λ copy. copy.items ≡ octets.now) }
{
    match octets.to_vec(alloc) {
        Ok(copy) => Ok(copy),
        Err(_) => Err(Memory),
    }
}
