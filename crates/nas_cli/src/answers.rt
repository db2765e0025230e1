//! What the program writes, and the statuses that go with it.
ghost use Rattle.std.specs.Prelude.{◌≡◌, Err, Ok, IfOk, string_bytes};
ghost use Rattle.nas_cli.specs.Program.{Says, answer_to, config_line, file_answer, octets_line, script_line, shown_answer, too_long_line, vectors_answer, words_answer};
ghost use Rattle.nas_show.specs.Shown.{shown};
ghost use Rattle.nas_cli.specs.declared.plan.Stop.TheVariants as stops;

use crate::plan::Run;
use crate::status::ExitStatus;
use crate::vectors::vectors_of;
use nas_base::{Sink, WriteRefusal};
use nas_script::{Key, TranscriptFault, transcript};
use nas_show::{ShowRefusal, show};
use std::alloc::{AllocError, Global};

/// Writes a text, and answers the status that goes with it.
pub fn tell<O: Sink>(alloc: Global, out: &mut O, text: &[u8], status: ExitStatus) -> ExitStatus
    ensures { Says (O.written out.old) (O.written out.new) (O.fault_count out.old) (O.fault_count out.new) (record { status = status; text = text.now }) result }
{
    match out.write(alloc, text) {
        Ok(()) => status,
        Err(WriteRefusal::Failed) => ExitStatus(6),
        Err(WriteRefusal::Memory) => ExitStatus(8),
    }
}

/// The words are of no form.
#[tactic(auto, unfolding(crate::specs::Program::words_line))]
pub fn tell_words<O: Sink>(alloc: Global, out: &mut O) -> ExitStatus
    ensures { Says (O.written out.old) (O.written out.new) (O.fault_count out.old) (O.fault_count out.new) words_answer result }
{
    tell(alloc, out, b"nas: words\n", ExitStatus(2))
}

/// The published vectors.
#[tactic(auto, using(crate::proofs::SayLaws::says_starved))]
pub fn tell_vectors<O: Sink>(alloc: Global, out: &mut O) -> ExitStatus
    ensures { Says (O.written out.old) (O.written out.new) (O.fault_count out.old) (O.fault_count out.new) vectors_answer result }
{
    match vectors_of(alloc) {
        Ok(text) => tell(alloc, out, text.as_slice(), ExitStatus(0)),
        Err(_) => ExitStatus(8),
    }
}

/// Octets as text.
#[tactic(auto, using(crate::proofs::SayLaws::says_starved))]
pub fn tell_shown<O: Sink>(alloc: Global, octets: &[u8], out: &mut O) -> ExitStatus
    ensures { Says (O.written out.old) (O.written out.new) (O.fault_count out.old) (O.fault_count out.new) (shown_answer (shown octets.now)) result }
{
    match show(alloc, octets) {
        Ok(text) => tell(alloc, out, text.as_slice(), ExitStatus(0)),
        Err(ShowRefusal::Octets { place }) => tell_octets(alloc, place, out),
        Err(ShowRefusal::Memory) => ExitStatus(8),
    }
}

// The octets are no message.
#[tactic(auto, using(crate::proofs::SayLaws::says_starved))]
fn tell_octets<O: Sink>(alloc: Global, place: usize, out: &mut O) -> ExitStatus
    ensures { Says (O.written out.old) (O.written out.new) (O.fault_count out.old) (O.fault_count out.new) (shown_answer (Err place)) result }
{
    match octets_text(alloc, place) {
        Ok(text) => tell(alloc, out, text.as_bytes(), ExitStatus(13)),
        Err(_) => ExitStatus(8),
    }
}

#[tactic(auto, unfolding(crate::specs::Program::octets_line))]
fn octets_text(alloc: Global, place: usize) -> Result<String, AllocError>
    ensures { IfOk result (λ text. string_bytes text ≡ octets_line place) }
{
    format!(in alloc; "nas: octets {place}\n")
}

/// A file was refused.
#[tactic(auto, unfolding(crate::specs::Program::file_line))]
pub fn tell_file<O: Sink>(alloc: Global, out: &mut O) -> ExitStatus
    ensures { Says (O.written out.old) (O.written out.new) (O.fault_count out.old) (O.fault_count out.new) file_answer result }
{
    tell(alloc, out, b"nas: file\n", ExitStatus(5))
}

/// A file is too long, or the script has too many events.
#[tactic(auto, using(crate::proofs::SayLaws::says_starved))]
pub fn tell_too_long<O: Sink>(alloc: Global, size: u64, out: &mut O) -> ExitStatus
    ensures { Says (O.written out.old) (O.written out.new) (O.fault_count out.old) (O.fault_count out.new) (answer_to (Err (stops.TooLong size))) result }
{
    match too_long_text(alloc, size) {
        Ok(text) => tell(alloc, out, text.as_bytes(), ExitStatus(11)),
        Err(_) => ExitStatus(8),
    }
}

#[tactic(auto, unfolding(crate::specs::Program::too_long_line))]
fn too_long_text(alloc: Global, size: u64) -> Result<String, AllocError>
    ensures { IfOk result (λ text. string_bytes text ≡ too_long_line size) }
{
    format!(in alloc; "nas: too long {size}\n")
}

/// The configuration is wrong.
#[tactic(auto, using(crate::proofs::SayLaws::says_starved))]
pub fn tell_config<O: Sink>(alloc: Global, key: Key, out: &mut O) -> ExitStatus
    ensures { Says (O.written out.old) (O.written out.new) (O.fault_count out.old) (O.fault_count out.new) (answer_to (Err (stops.Config key))) result }
{
    match config_text(alloc, key) {
        Ok(text) => tell(alloc, out, text.as_bytes(), ExitStatus(3)),
        Err(_) => ExitStatus(8),
    }
}

#[tactic(auto, unfolding(crate::specs::Program::config_line))]
fn config_text(alloc: Global, key: Key) -> Result<String, AllocError>
    ensures { IfOk result (λ text. string_bytes text ≡ config_line key) }
{
    let key = key.text();
    format!(in alloc; "nas: config {key}\n")
}

/// A line of the script is wrong.
#[tactic(auto, using(crate::proofs::SayLaws::says_starved))]
pub fn tell_script<O: Sink>(alloc: Global, line: u32, out: &mut O) -> ExitStatus
    ensures { Says (O.written out.old) (O.written out.new) (O.fault_count out.old) (O.fault_count out.new) (answer_to (Err (stops.Script line))) result }
{
    match script_text(alloc, line) {
        Ok(text) => tell(alloc, out, text.as_bytes(), ExitStatus(4)),
        Err(_) => ExitStatus(8),
    }
}

#[tactic(auto, unfolding(crate::specs::Program::script_line))]
fn script_text(alloc: Global, line: u32) -> Result<String, AllocError>
    ensures { IfOk result (λ text. string_bytes text ≡ script_line line) }
{
    format!(in alloc; "nas: script {line}\n")
}

/// The run's transcript.
pub fn tell_run<O: Sink>(alloc: Global, run: &Run, out: &mut O) -> ExitStatus
    ensures { Says (O.written out.old) (O.written out.new) (O.fault_count out.old) (O.fault_count out.new) (answer_to (Ok (run.now.config, run.now.script))) result }
{
    match transcript(alloc, &run.config, &run.script, out) {
        Ok(()) => ExitStatus(0),
        Err(TranscriptFault::Output) => ExitStatus(6),
        Err(TranscriptFault::Memory) => ExitStatus(8),
    }
}
