//! The tables of the subscribers.
ghost use Rattle.std.specs.Prelude.{◌≡◌, ◌≤◌, [], ◌∷◌, ◌++◌, true, false, length, map, IfOk, IfSome, OnOk};
ghost use Rattle.nas_base.specs.Supi.{is_of_plmn};
ghost use Rattle.toml.specs.View.{view};
ghost use Rattle.nas_network.specs.Config.{are_subscribers, is_subscriber};
ghost use Rattle.nas_script.specs.Reads.{Reads};
ghost use Rattle.nas_script.specs.Subscribers.{new_supi_at, subscriber_in, subscribers_in};

use crate::config::needed;
use crate::fields::{field_of, octets_of, sqn_of, supi_of};
use crate::names::names_of;
use crate::slices::slices_of;
use crate::{ConfigRefusal, Key};
use nas_base::{Memory, Plmn, Supi};
use nas_network::{Subscriber, Subscribers, is_subscriber};
use std::alloc::Global;
use toml::Value;

/// The subscribers of these tables, or the first key that is wrong.
pub fn read_subscribers(
    alloc: Global,
    plmn: &Plmn,
    tables: &[Value],
) -> Result<Subscribers, ConfigRefusal>
    requires some { 1 ≤ length tables.now }
    requires limit { length tables.now ≤ 64 }
    ensures value { Reads (λ subscribers. subscribers) result (subscribers_in plmn.now [] (map view tables.now)) }
    ensures fact { IfOk result (λ subscribers. are_subscribers plmn.now subscribers ≡ true) }
{
    let mut items = Vec::new(alloc);
    for table in tables {
        let subscriber = read_subscriber(alloc, plmn, items.as_slice(), table)?;
        push(&mut items, subscriber)?;
    }
    Ok(Subscribers { items })
}

// One more subscriber at the end.
fn push(items: &mut Vec<Subscriber>, subscriber: Subscriber) -> Result<(), Memory>
    ensures { OnOk result (items.new.items ≡ items.old.items ++ subscriber ∷ []) }
{
    match items.push(subscriber) {
        Ok(()) => Ok(()),
        Err(_) => Err(Memory),
    }
}

// The subscriber of a table, whose SUPI none of the subscribers before has.
#[tactic(auto, unfolding(crate::specs::Subscribers::subscriber_in))]
fn read_subscriber(
    alloc: Global,
    plmn: &Plmn,
    before: &[Subscriber],
    table: &Value,
) -> Result<Subscriber, ConfigRefusal>
    ensures value { Reads (λ s. s) result (subscriber_in plmn.now before.now (view table.now)) }
    ensures fact { IfOk result (λ s. (is_of_plmn plmn.now s.supi ≡ true) × (is_subscriber s.supi before.now ≡ false)) }
{
    let supi = needed(Key::Supi, new_supi_of(plmn, before, table))?;
    let k = needed(Key::K, octets_of::<16>("k", table))?;
    let opc = needed(Key::Opc, octets_of::<16>("opc", table))?;
    let field = needed(Key::Field, field_of(table))?;
    let sqn = needed(Key::Sqn, sqn_of(table))?;
    let dnns = needed(Key::Dnns, names_of(alloc, "dnns", table)?)?;
    let slices = needed(Key::Slices, slices_of("slices", table))?;
    Ok(Subscriber {
        supi,
        k,
        opc,
        field,
        sqn,
        dnns,
        slices,
    })
}

// The SUPI of a table, which none of the subscribers before has.
#[tactic(auto, unfolding(crate::specs::Subscribers::new_supi_at))]
fn new_supi_of(plmn: &Plmn, before: &[Subscriber], table: &Value) -> Option<Supi>
    ensures value { result ≡ new_supi_at plmn.now before.now (view table.now) }
    ensures fact { IfSome result (λ supi. (is_of_plmn plmn.now supi ≡ true) × (is_subscriber supi before.now ≡ false)) }
{
    let supi = supi_of(plmn, table)?;
    if is_subscriber(&supi, before) {
        None
    } else {
        Some(supi)
    }
}
