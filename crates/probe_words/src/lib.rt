//! The words of the programs nas_probe, machine_probe and session_probe: what a line says, as values, and what is answered, as text. Octets are
//! written as hex digits, two for each, and none of them as `-`; numbers are decimal. The crate makes no claim of its own.
#![tactic(auto)]

mod answers_told;
mod decimal_words;
mod hex_words;
mod lines;
mod refusals;
mod rule_texts;
mod timer_words;

pub use crate::answers_told::{
    in_one_line, literal, none, push, sum_of, sum_text, text, texts, word, written,
};
pub use crate::decimal_words::{count, direction, network, number, quantity, session, subscriber};
pub use crate::hex_words::{exactly, kept, octet, octets, parameter};
pub use crate::lines::{answered, words_of};
pub use crate::refusals::Refusal;
pub use crate::rule_texts::rules_text;
pub use crate::timer_words::{duration, moment, timer};
