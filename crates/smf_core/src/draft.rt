//! How a step keeps what it changes until it is done, and the one place where its changes are taken over.
//!
//! What was kept before the step stays as it is, and beside it stand the cells that changed and, where an address was
//! taken or given back, the pools as a copy. So want of memory leaves all as before, and a step copies the cells alone
//! that it changes. The rows see nothing of this: what they change is seen as what is kept by now.
ghost use Rattle.std.specs.Prelude.{◌≡◌, true, [], ◌∷◌, ◌++◌, map, unwrap_or, IfOk, OnErr, OnOk};
ghost use Rattle.nas_pools.specs.Pools.{freed, has_v6};
ghost use Rattle.smf_core.specs.Drafts.{Takes, TakesFrom, by, changed, newest, with_changes};
ghost use Rattle.smf_core.specs.Sessions.{AreSessions};
ghost use Rattle.smf_core.specs.State.{dnns_of, is_subscriber, slices_of, with_cell};
ghost use Rattle.smf_core.specs.Step.{out_of, started};
ghost use Rattle.smf_core.specs.Work.{act, cell, give, put};

use crate::acts::{Act, Acts};
use crate::cell::Cell;
use crate::config::Configured;
use crate::outs::{SmfOut, SmfOuts};
use crate::smf::{Smf, put_in};
use crate::subscriber::Subscriber;
use nas_base::{Memory, Moment, Psi, Supi};
use nas_elements::{Address, Dnns, Nssai};
use nas_pools::Pools;
use std::alloc::Global;
use std::marker::Model;

/// A cell that changed, under its identity.
#[derive(Drop)]
pub struct ChangedCell {
    pub psi: Psi,
    pub cell: Cell,
}

/// A step of one subscriber while it goes on.
#[derive(Drop)]
pub struct Work<'a> {
    alloc: Global,
    before: &'a Smf,
    supi: &'a Supi,
    subscriber: &'a Subscriber,
    moment: Moment,
    cells: Vec<ChangedCell>,
    pools: Option<Pools>,
    acts: Acts,
}

impl<'a> Model for Work<'a> {
    ghost use Rattle.smf_core.specs.Drafts.{Drafted, IsKept, changed};

    ghost Value = { Drafted };

    ghost view = { λ w. record { work = record { smf = changed (record { supi = w.supi.now; cells = w.cells.items; pools = w.pools }) w.before.now; supi = w.supi.now; moment = w.moment; acts = w.acts }; before = w.before.now } };

    ghost invariant = { λ w. IsKept w.supi.now w.subscriber.now w.cells.items w.before.now };
}

/// What a step changes, and what goes out. It is taken over by the SMF that the step was followed from.
#[derive(Drop)]
pub struct Done {
    supi: Supi,
    cells: Vec<ChangedCell>,
    pools: Option<Pools>,
    outs: SmfOuts,
}

impl Model for Done {
    ghost use Rattle.smf_core.specs.Drafts.{DoneParts};

    ghost Value = { DoneParts };

    ghost view = { λ d. record { changes = record { supi = d.supi; cells = d.cells.items; pools = d.pools }; outs = d.outs } };
}

// The cell of an identity after these changes.
fn newest<'b>(psi: Psi, changed: &'b [ChangedCell], kept: &'b Cell) -> &'b Cell
    ensures { result.now ≡ newest psi changed.now kept.now }
{
    match changed {
        [] => kept,
        [change, rest @ ..] if change.psi == psi => newest(psi, rest, &change.cell),
        [_, rest @ ..] => newest(psi, rest, kept),
    }
}

// One more cell that changed.
fn push_cell(cells: &mut Vec<ChangedCell>, psi: Psi, cell: Cell) -> Result<(), Memory>
    ensures ok { OnOk result (cells.new.items ≡ cells.old.items ++ record { psi = psi; cell = cell } ∷ []) }
    ensures err { OnErr result (cells.new.items ≡ cells.old.items) }
{
    match cells.push(ChangedCell { psi, cell }) {
        Ok(()) => Ok(()),
        Err(_) => Err(Memory),
    }
}

// The addresses as they are by now, to be changed: a step copies them once, when
// it first takes or gives back an address.
fn own_pools(alloc: Global, changed: &mut Option<Pools>, kept: &Pools) -> Result<Pools, Memory>
    ensures { IfOk result (λ pools. pools ≡ unwrap_or changed.old kept.now) }
{
    match changed.take() {
        Some(pools) => Ok(pools),
        None => kept.copy(alloc),
    }
}

// Takes the least free address, where there is one: of IPv4 (1), of IPv6 (2), or one of each.
#[tactic(auto, unfolding(nas_pools::specs::Pools::take_of))]
fn taken_from(pools: &mut Pools, kind: u8) -> Option<Address>
    ensures { TakesFrom kind result pools.old pools.new }
{
    let taken = match kind {
        1 => pools.take(1),
        2 => pools.take(2),
        _ => pools.take(3),
    };
    taken.ok()
}

// Gives an address back, where it was taken.
fn give_to(pools: &mut Pools, address: &Address)
    ensures { pools.new ≡ freed address.now pools.old }
{
    match pools.give(address) {
        Ok(()) => {}
        Err(_) => {}
    }
}

impl<'a> Work<'a> {
    /// A step at its start.
    pub fn new(alloc: Global, before: &'a Smf, now: Moment, supi: &'a Supi) -> Work<'a>
        requires { is_subscriber supi.now before.now ≡ true }
        ensures { result ≡ record { work = started before.now now supi.now; before = before.now } }
    {
        let subscriber = before.subscriber(supi).unwrap();
        subscriber.cells.whole();
        Work {
            alloc,
            before,
            supi,
            subscriber,
            moment: now,
            cells: Vec::new(alloc),
            pools: None,
            acts: Acts::new(alloc),
        }
    }

    /// The allocator of what the step makes.
    pub fn alloc(&self) -> Global {
        self.alloc
    }

    /// The moment of the step.
    pub fn moment(&self) -> Moment
        ensures { result ≡ self.now.work.moment }
    {
        self.moment
    }

    /// What was configured.
    pub fn config(&self) -> &Configured
        ensures { result.now ≡ self.now.work.smf.config }
    {
        let before = self.before;
        &before.config
    }

    /// The data networks that the subscriber has.
    pub fn dnns(&self) -> &Dnns
        ensures { result.now ≡ dnns_of self.now.work.supi self.now.work.smf }
    {
        let subscriber = self.subscriber;
        &subscriber.dnns
    }

    /// The slices that the subscriber has.
    pub fn slices(&self) -> &Nssai
        ensures { result.now ≡ slices_of self.now.work.supi self.now.work.smf }
    {
        let subscriber = self.subscriber;
        &subscriber.slices
    }

    /// The cell of an identity.
    pub fn cell(&self, psi: Psi) -> &Cell
        ensures { result.now ≡ cell psi self.now.work }
    {
        let _number = psi.0;
        let subscriber = self.subscriber;
        newest(psi, self.cells.as_slice(), subscriber.cells.at(psi))
    }

    /// Another cell takes its place.
    pub fn put(&mut self, psi: Psi, cell: Cell) -> Result<(), Memory>
        ensures { OnOk result (self.new ≡ by (put psi cell) self.old) }
    {
        let _number = psi.0;
        push_cell(&mut self.cells, psi, cell)?;
        Ok(())
    }

    /// Whether there are interface identifiers of IPv6.
    pub fn has_v6(&self) -> bool
        ensures { result ≡ has_v6 self.now.work.smf.pools }
    {
        match &self.pools {
            Some(pools) => pools.has_v6(),
            None => {
                let before = self.before;
                before.pools.has_v6()
            }
        }
    }

    /// Takes the least free address, where there is one: of IPv4 (1), of IPv6 (2), or one of each.
    pub fn take(&mut self, kind: u8) -> Result<Option<Address>, Memory>
        ensures { IfOk result (λ address. Takes kind address self.old self.new) }
    {
        let before = self.before;
        let mut pools = own_pools(self.alloc, &mut self.pools, &before.pools)?;
        let address = taken_from(&mut pools, kind);
        self.pools = Some(pools);
        Ok(address)
    }

    /// Gives an address back.
    pub fn give(&mut self, address: &Address) -> Result<(), Memory>
        ensures { OnOk result (self.new ≡ by (give address.now) self.old) }
    {
        let before = self.before;
        let mut pools = own_pools(self.alloc, &mut self.pools, &before.pools)?;
        give_to(&mut pools, address);
        self.pools = Some(pools);
        Ok(())
    }

    /// Something is said.
    pub fn act(&mut self, said: Act) -> Result<(), Memory>
        ensures { OnOk result (self.new ≡ by (act said) self.old) }
    {
        self.acts.push(said)
    }

    /// The step is done: what it said goes out.
    pub fn end(self) -> Result<Done, Memory>
        ensures smf { IfOk result (λ done. changed done.changes self.entry.before ≡ self.entry.work.smf) }
        ensures outs { IfOk result (λ done. done.outs ≡ map out_of self.entry.work.acts) }
    {
        let outs = outs_of(self.alloc, self.acts)?;
        Ok(Done {
            supi: self.supi.copy(),
            cells: self.cells,
            pools: self.pools,
            outs,
        })
    }
}

// What was said, as it goes out.
fn outs_of(alloc: Global, acts: Acts) -> Result<SmfOuts, Memory>
    ensures { IfOk result (λ outs. outs ≡ map out_of acts) }
{
    let mut outs = SmfOuts::new(alloc);
    for act in acts.items {
        outs.push(alloc, out_of(act))?;
    }
    Ok(outs)
}

// The same of one.
fn out_of(act: Act) -> SmfOut
    ensures { result ≡ out_of act }
{
    match act {
        Act::Down { psi, message } => SmfOut::Down {
            psi,
            frame: message.into_octets(),
        },
        Act::Fence => SmfOut::Fence,
        Act::Start { id, at } => SmfOut::Start { id, at },
        Act::Stop(id) => SmfOut::Stop(id),
    }
}

// A cell that changed takes its place.
fn put_one(subscribers: &mut Vec<Subscriber>, supi: &Supi, change: ChangedCell)
    ensures { subscribers.new.items ≡ with_cell supi.now change.psi change.cell subscribers.old.items }
{
    put_in(subscribers.as_mut_slice(), supi, change.psi, change.cell);
}

// The cells that changed take their places, in order.
#[tactic(auto, using(crate::proofs::Drafting::with_changes_put))]
fn put_cells(subscribers: &mut Vec<Subscriber>, supi: &Supi, cells: Vec<ChangedCell>)
    ensures { subscribers.new.items ≡ with_changes supi.now cells.items subscribers.old.items }
{
    for change in cells {
        put_one(subscribers, supi, change);
    }
}

// The addresses become what they are by now.
fn take_pools(kept: &mut Pools, changed: Option<Pools>)
    ensures { kept.new ≡ unwrap_or changed kept.old }
{
    if let Some(changed) = changed {
        *kept = changed;
    }
}

impl Done {
    /// Takes the changes over, and answers what goes out. It takes no memory.
    pub fn take_over(self, smf: &mut Smf) -> SmfOuts
        requires { AreSessions (changed self.changes smf.old) }
        ensures smf { smf.new ≡ changed self.changes smf.old }
        ensures outs { result ≡ self.outs }
    {
        let Done {
            supi,
            cells,
            pools,
            outs,
        } = self;
        put_cells(&mut smf.subscribers, &supi, cells);
        take_pools(&mut smf.pools, pools);
        outs
    }
}
