//! The call of nas_script:
//!
//!     run CONFIG SCRIPT
//!
//! Both files are given by their octets. The answer is the transcript with a stroke for each line's end, or `config KEY`, `script LINE`
//! or `long SIZE` where a file is none.

ghost use Rattle.std.specs.Prelude.{◌≤◌, length};

use nas_base::MemorySink;
use nas_script::{
    ConfigRefusal, ScriptRefusal, TranscriptFault, read_config, read_script, transcript,
};
use nas_world::{Script, WorldConfig};
use probe_words::{Refusal, in_one_line, octets, word};
use std::alloc::Global;

// The most octets of a script.
const MOST: usize = 1_048_576;

/// The answer to a call.
pub fn answer(alloc: Global, words: &[&str]) -> Result<String, Refusal> {
    let ["run", config, script] = words else {
        return Err(Refusal::Unreadable);
    };
    let config = octets(alloc, config)?;
    let script = octets(alloc, script)?;
    if script.len() > MOST {
        return Err(Refusal::Unreadable);
    }
    match read_config(alloc, &config) {
        Ok(config) => with_config(alloc, &config, &script),
        Err(ConfigRefusal::ConfigWrong { key }) => {
            let key = key.text();
            word(format!(in alloc; "config {key}"))
        }
        Err(ConfigRefusal::Memory) => Err(Refusal::Memory),
    }
}

fn with_config(alloc: Global, config: &WorldConfig, script: &[u8]) -> Result<String, Refusal>
    requires { length script.now ≤ 1048576 }
{
    match read_script(alloc, script) {
        Ok(script) => told(alloc, config, &script),
        Err(ScriptRefusal::TooLong { size }) => word(format!(in alloc; "long {size}")),
        Err(ScriptRefusal::ScriptWrong { line }) => word(format!(in alloc; "script {line}")),
        Err(ScriptRefusal::Memory) => Err(Refusal::Memory),
    }
}

fn told(alloc: Global, config: &WorldConfig, script: &Script) -> Result<String, Refusal> {
    let mut out = MemorySink::new(alloc);
    match transcript(alloc, config, script, &mut out) {
        Ok(()) => in_one_line(alloc, out.octets()),
        Err(TranscriptFault::Output | TranscriptFault::Memory) => Err(Refusal::Memory),
    }
}
