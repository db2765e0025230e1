//! The lines of a script.
ghost use Rattle.std.specs.Prelude.{◌≡◌, option_map, IfOk};
ghost use Rattle.std.specs.Option.{option_and_then};
ghost use Rattle.nas_script.specs.Lines.{all_ascii, is_event};
ghost use Rattle.nas_script.specs.Events.{behind, command_in, delivery_in, event_in, injection_in, plain_in, random_in, tick_in};
ghost use Rattle.nas_script.specs.Numbers.{count_in, moment_in};
ghost use Rattle.nas_script.specs.Octets.{message_in};
ghost use Rattle.nas_script.specs.Script.{said_by};

use crate::numbers::{count_of, moment_of};
use crate::octets::{message_of, octets_of};
use nas_base::{Kind, Memory, Moment, Octets};
use nas_handset::UeCommand;
use nas_world::{Event, NetOrder};
use std::alloc::Global;

/// What a line says: an event, or nothing where it is empty or a comment. None exactly where it is no line.
///
/// # Errors
///
/// `Memory`.
pub fn said_by(alloc: Global, line: &[u8]) -> Result<Option<Option<Event>>, Memory>
    ensures { IfOk result (λ said. said ≡ said_by line.now) }
{
    if !only_ascii(line) {
        return Ok(None);
    }
    if !is_event_line(line) {
        return Ok(Some(None));
    }
    match event_of(alloc, line)? {
        Some(event) => Ok(Some(Some(event))),
        None => Ok(None),
    }
}

// No octet is above 127.
fn only_ascii(line: &[u8]) -> bool
    ensures { result ≡ all_ascii line.now }
{
    line.iter().all(|octet| *octet < 128)
}

// The line is neither empty nor a comment.
fn is_event_line(line: &[u8]) -> bool
    ensures { result ≡ is_event line.now }
{
    match line {
        [] => false,
        [first, ..] => *first != b'#',
    }
}

// The event of a line.
#[tactic(auto, unfolding(crate::specs::Events::event_in))]
fn event_of(alloc: Global, line: &[u8]) -> Result<Option<Event>, Memory>
    ensures { IfOk result (λ found. found ≡ event_in line.now) }
{
    if let Some(command) = command_of(line) {
        return Ok(Some(Event::Command(command)));
    }
    if let Some(event) = plain_of(line) {
        return Ok(Some(event));
    }
    if let Some(event) = delivery_of(line) {
        return Ok(Some(event));
    }
    if let Some(event) = tick_of(line) {
        return Ok(Some(event));
    }
    if let Some(event) = random_of(line) {
        return Ok(Some(event));
    }
    injection_of(alloc, line)
}

// The command to the handset.
#[tactic(auto, unfolding(crate::specs::Events::command_in))]
fn command_of(line: &[u8]) -> Option<UeCommand>
    ensures { result ≡ command_in line.now }
{
    if line == b"register".as_slice() {
        return Some(UeCommand::Register(Kind::Initial));
    }
    if line == b"register mobility".as_slice() {
        return Some(UeCommand::Register(Kind::Mobility));
    }
    if line == b"register periodic".as_slice() {
        return Some(UeCommand::Register(Kind::Periodic));
    }
    if line == b"service".as_slice() {
        return Some(UeCommand::Service);
    }
    if line == b"deregister".as_slice() {
        return Some(UeCommand::Deregister { switch_off: false });
    }
    if line == b"switch-off".as_slice() {
        return Some(UeCommand::Deregister { switch_off: true });
    }
    None
}

// An event of one word.
#[tactic(auto, unfolding(crate::specs::Events::plain_in))]
fn plain_of(line: &[u8]) -> Option<Event>
    ensures { result ≡ plain_in line.now }
{
    if line == b"net-authenticate".as_slice() {
        return Some(Event::NetCommand(NetOrder::Authenticate));
    }
    if line == b"net-deregister".as_slice() {
        return Some(Event::NetCommand(NetOrder::Deregister));
    }
    if line == b"drop-ue".as_slice() {
        return Some(Event::DropUe);
    }
    if line == b"drop-net".as_slice() {
        return Some(Event::DropNet);
    }
    if line == b"restart".as_slice() {
        return Some(Event::Restart);
    }
    None
}

// The delivery of a message.
#[tactic(auto, unfolding(crate::specs::Events::delivery_in))]
fn delivery_of(line: &[u8]) -> Option<Event>
    ensures { result ≡ delivery_in line.now }
{
    if let Some(number) = count_behind(b"to-net ", line) {
        return Some(Event::ToNet(number));
    }
    Some(Event::ToUe(count_behind(b"to-ue ", line)?))
}

// A moment that is told.
#[tactic(auto, unfolding(crate::specs::Events::tick_in))]
fn tick_of(line: &[u8]) -> Option<Event>
    ensures { result ≡ tick_in line.now }
{
    if let Some(moment) = moment_behind(b"ue-at ", line) {
        return Some(Event::UeAt(moment));
    }
    Some(Event::NetAt(moment_behind(b"net-at ", line)?))
}

// Random octets.
#[tactic(auto, unfolding(crate::specs::Events::random_in))]
fn random_of(line: &[u8]) -> Option<Event>
    ensures { result ≡ random_in line.now }
{
    Some(Event::Random(octets_of::<16>(behind(b"random ", line)?)?))
}

// Octets that reach an end.
#[tactic(auto, unfolding(crate::specs::Events::injection_in))]
fn injection_of(alloc: Global, line: &[u8]) -> Result<Option<Event>, Memory>
    ensures { IfOk result (λ found. found ≡ injection_in line.now) }
{
    if let Some(octets) = message_behind(alloc, b"inject-net fresh ", line)? {
        return Ok(Some(Event::InjectNet {
            fresh: true,
            octets,
        }));
    }
    if let Some(octets) = message_behind(alloc, b"inject-net ", line)? {
        return Ok(Some(Event::InjectNet {
            fresh: false,
            octets,
        }));
    }
    match message_behind(alloc, b"inject-ue ", line)? {
        Some(octets) => Ok(Some(Event::InjectUe(octets))),
        None => Ok(None),
    }
}

// The number of a message behind words and a space.
fn count_behind(words: &[u8], line: &[u8]) -> Option<u32>
    ensures { result ≡ option_and_then count_in (behind words.now line.now) }
{
    count_of(behind(words, line)?)
}

// The moment behind words and a space.
fn moment_behind(words: &[u8], line: &[u8]) -> Option<Moment>
    ensures { result ≡ option_and_then moment_in (behind words.now line.now) }
{
    moment_of(behind(words, line)?)
}

// The octets behind words and a space.
fn message_behind(alloc: Global, words: &[u8], line: &[u8]) -> Result<Option<Octets>, Memory>
    ensures { IfOk result (λ found. found ≡ option_and_then message_in (behind words.now line.now)) }
{
    match behind(words, line) {
        Some(text) => message_of(alloc, text),
        None => Ok(None),
    }
}

// What stands behind words and a space.
fn behind<'a>(words: &[u8], line: &'a [u8]) -> Option<&'a [u8]>
    ensures { option_map (λ rest. rest.now) result ≡ behind words.now line.now }
{
    if line.starts_with(words) {
        let (_, rest) = line.split_at(words.len());
        Some(rest)
    } else {
        None
    }
}
