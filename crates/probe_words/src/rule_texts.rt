//! QoS rules, as text: `none`, or for each rule the word `r` with identifier, default bit, precedence and QFI, and then for each filter
//! a word of its direction, its identifier and its components.

use crate::answers_told::{literal, push, text};
use crate::refusals::Refusal;
use nas_qos::{Filter, Part, Rule};
use std::alloc::Global;

/// The rules as words, with this between.
pub fn rules_text(alloc: Global, rules: &[Rule], between: &str) -> Result<String, Refusal> {
    if rules.is_empty() {
        return literal(alloc, "none");
    }
    let mut line = String::new(alloc);
    for rule in rules {
        if !line.is_empty() {
            push(&mut line, between)?;
        }
        add_rule(alloc, rule, between, &mut line)?;
    }
    Ok(line)
}

fn add_rule(alloc: Global, rule: &Rule, between: &str, line: &mut String) -> Result<(), Refusal> {
    let head = [rule.id, rule.default as u8, rule.precedence, rule.qfi];
    add_word(alloc, "r", &head, line)?;
    for filter in rule.filters.as_slice() {
        let filter = filter_octets(alloc, filter)?;
        add_word(alloc, between, filter.as_slice(), line)?;
    }
    Ok(())
}

fn add_word(alloc: Global, before: &str, octets: &[u8], line: &mut String) -> Result<(), Refusal> {
    let word = text(alloc, octets)?;
    push(line, before)?;
    push(line, word.as_str())
}

// Direction, identifier and components of a filter.
fn filter_octets(alloc: Global, filter: &Filter) -> Result<Vec<u8>, Refusal> {
    let mut octets = Vec::new(alloc);
    extend(&mut octets, &[filter.direction, filter.id])?;
    for part in filter.parts.as_slice() {
        add_part(&mut octets, part)?;
    }
    Ok(octets)
}

fn add_part(octets: &mut Vec<u8>, part: &Part) -> Result<(), Refusal> {
    match part {
        Part::All => extend(octets, &[0x01]),
        Part::Remote { address, mask } => with_two(octets, 0x10, address, mask),
        Part::Local { address, mask } => with_two(octets, 0x11, address, mask),
        Part::Protocol(protocol) => extend(octets, &[0x30, *protocol]),
        Part::LocalPort(port) => with_two(octets, 0x40, &port.to_be_bytes(), &[]),
        Part::RemotePort(port) => with_two(octets, 0x50, &port.to_be_bytes(), &[]),
        Part::LocalPorts { low, high } => {
            with_two(octets, 0x41, &low.to_be_bytes(), &high.to_be_bytes())
        }
        Part::RemotePorts { low, high } => {
            with_two(octets, 0x51, &low.to_be_bytes(), &high.to_be_bytes())
        }
    }
}

// A component's type and both parts of its value.
fn with_two(octets: &mut Vec<u8>, kind: u8, first: &[u8], second: &[u8]) -> Result<(), Refusal> {
    extend(octets, &[kind])?;
    extend(octets, first)?;
    extend(octets, second)
}

fn extend(octets: &mut Vec<u8>, more: &[u8]) -> Result<(), Refusal> {
    match octets.extend_from_slice(more) {
        Ok(()) => Ok(()),
        Err(_) => Err(Refusal::Memory),
    }
}
