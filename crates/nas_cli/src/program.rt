//! The program.
ghost use Rattle.std.specs.Prelude.{◌≡◌, ◌≢◌, ◌∷◌, [], false, true, None, Some, IfOk, IfSome, IfNone, IsSome, option_map};
ghost use Rattle.nas_base.specs.Outside.{Rose};
ghost use Rattle.nas_cli.specs.Program.{AsksFirst, IsOfContent, IsRefused, Says, SaysRun, asks, names_in, answer_to, planned, run_form, show_form, shown_answer, vectors_answer, words_answer, is_vectors, hex_octets};
ghost use Rattle.nas_show.specs.Shown.{shown};
ghost use Rattle.nas_cli.specs.Shelf.{octets_named};

use crate::answers::{
    tell_config, tell_file, tell_run, tell_script, tell_shown, tell_too_long, tell_vectors,
    tell_words,
};
use crate::files::Files;
use crate::plan::{Stop, read_run};
use crate::shelf::MemoryFiles;
use crate::status::ExitStatus;
use crate::words::Words;
use hex::FromHexError;
use nas_base::{Memory, MemorySink, Sink};
use std::alloc::Global;

// A message has at most so many octets.
const LONGEST_MESSAGE: usize = 4096;

/// The program, over the words of its command line, the files and the output that it is handed.
///
/// `run CONFIG SCRIPT` writes the transcript of the run that the two files ask for, `show HEX` the message in the octets, and
/// `vectors` the published vectors of the ciphers and key derivations; all end with 0. Octets that are no message give 13.
/// Words of any other form give 2. A fault of the files
/// gives the line that names it, and its status.
pub fn nas<F: Files, O: Sink>(
    alloc: Global,
    words: &Words,
    files: &mut F,
    out: &mut O,
) -> ExitStatus
    ensures words { IfNone (run_form words.now) (is_vectors words.now ≡ false → IfNone (show_form words.now) (Says (O.written out.old) (O.written out.new) (O.fault_count out.old) (O.fault_count out.new) words_answer result)) }
    ensures vectors { is_vectors words.now ≡ true → Says (O.written out.old) (O.written out.new) (O.fault_count out.old) (O.fault_count out.new) vectors_answer result }
    ensures show { IfSome (show_form words.now) (λ octets. Says (O.written out.old) (O.written out.new) (O.fault_count out.old) (O.fault_count out.new) (shown_answer (shown octets)) result) }
    ensures run { IfSome (run_form words.now) (λ names.
        SaysRun (F.content files.old) names (F.fault_count files.old) (F.fault_count files.new)
        (λ answer. Says (O.written out.old) (O.written out.new) (O.fault_count out.old) (O.fault_count out.new) answer result)) }

    // A fault of the outside is answered only where its object's count rose.
    ensures file_fault { result ≡ 5 → Rose (F.fault_count files.old) (F.fault_count files.new) }
    ensures output_fault { result ≡ 6 → Rose (O.fault_count out.old) (O.fault_count out.new) }

    // The configuration's file is asked for, and then the script's; no other, and neither twice. The script's isn't where
    // the configuration's is refused, and is where their content is judged.
    ensures asked { AsksFirst (F.asked files.old) (F.asked files.new) (names_in (run_form words.now)) }
    ensures asked_one { IfSome (run_form words.now) (λ names. IfSome (F.content files.old) (λ content.
        IsRefused (content names.0) → AsksFirst (F.asked files.old) (F.asked files.new) (names.0 ∷ []))) }
    ensures asked_both { IsOfContent result → F.asked files.new ≡ asks (names_in (run_form words.now)) (F.asked files.old) }

    // Words of a form never give 2.
    ensures form { result ≡ 2 → (run_form words.now ≡ None) × (is_vectors words.now ≡ false) × (show_form words.now ≡ None) }

    // Only octets to show give 13.
    ensures octets { result ≡ 13 → IsSome (show_form words.now) }
{
    match run_names(words) {
        Some((config, script)) => run(alloc, config, script, files, out),
        None => without_files(alloc, words, out),
    }
}

/// The same over objects in memory, which never fail: so no fault of them is answered, and what is said is the answer or,
/// where memory is wanting, a front of it.
pub fn nas_in_memory(
    alloc: Global,
    words: &Words,
    files: &mut MemoryFiles,
    out: &mut MemorySink,
) -> ExitStatus
    ensures no_file_fault { result ≢ 5 }
    ensures no_output_fault { result ≢ 6 }
    ensures words { IfNone (run_form words.now) (is_vectors words.now ≡ false → IfNone (show_form words.now) (Says (Some out.old) (Some out.new) 0 0 words_answer result)) }
    ensures vectors { is_vectors words.now ≡ true → Says (Some out.old) (Some out.new) 0 0 vectors_answer result }
    ensures show { IfSome (show_form words.now) (λ octets. Says (Some out.old) (Some out.new) 0 0 (shown_answer (shown octets)) result) }
    ensures run { IfSome (run_form words.now) (λ names. Says (Some out.old) (Some out.new) 0 0
        (answer_to (planned (Some (octets_named names.0 files.old.files)) (Some (octets_named names.1 files.old.files)))) result) }
{
    nas(alloc, words, files, out)
}

// Writes the vectors, or the message to show, where the words ask for them; else they are of no form.
fn without_files<O: Sink>(alloc: Global, words: &Words, out: &mut O) -> ExitStatus
    ensures words { is_vectors words.now ≡ false → IfNone (show_form words.now) (Says (O.written out.old) (O.written out.new) (O.fault_count out.old) (O.fault_count out.new) words_answer result) }
    ensures vectors { is_vectors words.now ≡ true → Says (O.written out.old) (O.written out.new) (O.fault_count out.old) (O.fault_count out.new) vectors_answer result }
    ensures show { IfSome (show_form words.now) (λ octets. Says (O.written out.old) (O.written out.new) (O.fault_count out.old) (O.fault_count out.new) (shown_answer (shown octets)) result) }
    ensures file_fault { result ≢ 5 }
    ensures output_fault { result ≡ 6 → Rose (O.fault_count out.old) (O.fault_count out.new) }
    ensures form { result ≡ 2 → (is_vectors words.now ≡ false) × (show_form words.now ≡ None) }
    ensures octets { result ≡ 13 → IsSome (show_form words.now) }
{
    if asks_for_vectors(words) {
        return tell_vectors(alloc, out);
    }
    show_or_words(alloc, words, out)
}

// Writes the message to show; else the words are of no form.
#[tactic(auto, using(crate::proofs::SayLaws::says_starved))]
fn show_or_words<O: Sink>(alloc: Global, words: &Words, out: &mut O) -> ExitStatus
    ensures words { IfNone (show_form words.now) (Says (O.written out.old) (O.written out.new) (O.fault_count out.old) (O.fault_count out.new) words_answer result) }
    ensures show { IfSome (show_form words.now) (λ octets. Says (O.written out.old) (O.written out.new) (O.fault_count out.old) (O.fault_count out.new) (shown_answer (shown octets)) result) }
    ensures file_fault { result ≢ 5 }
    ensures output_fault { result ≡ 6 → Rose (O.fault_count out.old) (O.fault_count out.new) }
    ensures form { result ≡ 2 → show_form words.now ≡ None }
    ensures octets { result ≡ 13 → IsSome (show_form words.now) }
{
    match octets_to_show(alloc, words) {
        Ok(Some(octets)) => tell_shown(alloc, octets.as_slice(), out),
        Ok(None) => tell_words(alloc, out),
        Err(Memory) => ExitStatus(8),
    }
}

// The octets to show, where the words are `show HEX`.
#[tactic(auto, unfolding(crate::specs::Program::show_word))]
fn octets_to_show(alloc: Global, words: &Words) -> Result<Option<Vec<u8>>, Memory>
    ensures { IfOk result (λ octets. option_map (λ v. v.items) octets ≡ show_form words.now) }
{
    match words.items.as_slice() {
        [form, hex] => {
            if form.as_str() == "show" {
                octets_in(alloc, hex.as_str())
            } else {
                Ok(None)
            }
        }
        _ => Ok(None),
    }
}

// The octets of a message in hex digits, small or capital ones.
#[tactic(auto, unfolding(crate::specs::Program::hex_octets))]
fn octets_in(alloc: Global, text: &str) -> Result<Option<Vec<u8>>, Memory>
    ensures { IfOk result (λ octets. option_map (λ v. v.items) octets ≡ hex_octets text.now) }
{
    match hex::decode(alloc, text) {
        Ok(octets) => {
            if octets.is_empty() || octets.len() > LONGEST_MESSAGE {
                Ok(None)
            } else {
                Ok(Some(octets))
            }
        }
        Err(FromHexError::OutOfMemory) => Err(Memory),
        Err(_) => Ok(None),
    }
}

// The words are `vectors`.
#[tactic(auto, unfolding(crate::specs::Program::vectors_word))]
fn asks_for_vectors(words: &Words) -> bool
    ensures { result ≡ is_vectors words.now }
{
    match words.items.as_slice() {
        [form] => form.as_str() == "vectors",
        _ => false,
    }
}

// The names of both files, where the words are `run CONFIG SCRIPT`.
#[tactic(auto, unfolding(crate::specs::Program::run_word))]
fn run_names(words: &Words) -> Option<(&str, &str)>
    ensures { option_map (λ names. (names.0.now, names.1.now)) result ≡ run_form words.now }
{
    match words.items.as_slice() {
        [form, config, script] => {
            if form.as_str() == "run" {
                Some((config.as_str(), script.as_str()))
            } else {
                None
            }
        }
        _ => None,
    }
}

// Writes what the two files ask for.
#[tactic(auto, using(crate::proofs::SayLaws::says_run_starved))]
fn run<F: Files, O: Sink>(
    alloc: Global,
    config: &str,
    script: &str,
    files: &mut F,
    out: &mut O,
) -> ExitStatus
    ensures run { SaysRun (F.content files.old) (config.now, script.now) (F.fault_count files.old) (F.fault_count files.new)
        (λ answer. Says (O.written out.old) (O.written out.new) (O.fault_count out.old) (O.fault_count out.new) answer result) }
    ensures file_fault { result ≡ 5 → Rose (F.fault_count files.old) (F.fault_count files.new) }
    ensures output_fault { result ≡ 6 → Rose (O.fault_count out.old) (O.fault_count out.new) }
    ensures asked { AsksFirst (F.asked files.old) (F.asked files.new) (config.now ∷ script.now ∷ []) }
    ensures asked_one { IfSome (F.content files.old) (λ content.
        IsRefused (content config.now) → AsksFirst (F.asked files.old) (F.asked files.new) (config.now ∷ [])) }
    ensures asked_both { IsOfContent result → F.asked files.new ≡ asks (config.now ∷ script.now ∷ []) (F.asked files.old) }
    ensures form { result ≢ 2 }
    ensures octets { result ≢ 13 }
{
    match read_run(alloc, config, script, files) {
        Ok(run) => tell_run(alloc, &run, out),
        Err(Stop::File) => tell_file(alloc, out),
        Err(Stop::TooLong { size }) => tell_too_long(alloc, size, out),
        Err(Stop::Config { key }) => tell_config(alloc, key, out),
        Err(Stop::Script { line }) => tell_script(alloc, line, out),
        Err(Stop::Memory) => ExitStatus(8),
    }
}
