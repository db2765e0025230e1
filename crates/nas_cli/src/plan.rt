//! What the files of a run ask for.
ghost use Rattle.std.specs.Prelude.{◌≡◌, ◌≢◌, ◌≤◌, ◌∷◌, [], true, false, length, IfSome, IfErr, OnOk};
ghost use Rattle.nas_base.specs.Outside.{Rose};
ghost use Rattle.nas_cli.specs.declared.plan.Stop.TheVariants.{File};
ghost use Rattle.nas_cli.specs.Program.{AsksFirst, Fetches, IsRefused, Plans, asks, is_of_content, configured, planned};
ghost use Rattle.nas_script.specs.Config.{config_in};
ghost use Rattle.nas_script.specs.Script.{script_in};

use crate::files::{FileRefusal, Files};
use nas_base::Octets1M;
use nas_script::{ConfigRefusal, Key, ScriptRefusal, read_config, read_script};
use nas_world::{Script, WorldConfig};
use std::alloc::Global;

// The longest file, in octets.
const FILE_LIMIT: u32 = 1_048_576;

/// A run.
#[derive(Drop)]
pub struct Run {
    pub config: WorldConfig,
    pub script: Script,
}

/// Why there is no run.
#[derive(Clone, Copy, Debug, PartialEq, Eq)]
pub enum Stop {
    /// A file was refused.
    File,
    /// A file is too long, or the script has too many events.
    TooLong { size: u64 },
    /// The configuration is wrong.
    Config { key: Key },
    /// A line of the script is wrong.
    Script { line: u32 },
    /// There was no memory left.
    Memory,
}

/// The run that both files ask for, or the first fault: that of reading the configuration, of reading the script, in the
/// configuration, in the script.
pub fn read_run<F: Files>(
    alloc: Global,
    config: &str,
    script: &str,
    files: &mut F,
) -> Result<Run, Stop>
    ensures plan { IfSome (F.content files.old) (λ content. Plans (planned (content config.now) (content script.now)) result) }
    ensures fault { IfErr result (λ stop. stop ≡ File → Rose (F.fault_count files.old) (F.fault_count files.new)) }
    ensures asked { AsksFirst (F.asked files.old) (F.asked files.new) (config.now ∷ script.now ∷ []) }
    ensures asked_one { IfSome (F.content files.old) (λ content.
        IsRefused (content config.now) → AsksFirst (F.asked files.old) (F.asked files.new) (config.now ∷ [])) }
    ensures asked_both { OnOk result (F.asked files.new ≡ asks (config.now ∷ script.now ∷ []) (F.asked files.old)) }
    ensures asked_both_err { IfErr result (λ stop.
        is_of_content stop ≡ true → F.asked files.new ≡ asks (config.now ∷ script.now ∷ []) (F.asked files.old)) }
{
    let config = read(alloc, config, files)?;
    let script = read(alloc, script, files)?;
    both(alloc, config.as_slice(), script.as_slice())
}

// The octets of a file.
fn read<F: Files>(alloc: Global, name: &str, files: &mut F) -> Result<Octets1M, Stop>
    ensures read { IfSome (F.content files.old) (λ content. Fetches (content name.now) result) }
    ensures fault { IfErr result (λ stop. stop ≡ File → Rose (F.fault_count files.old) (F.fault_count files.new)) }
    ensures kind { IfErr result (λ stop. is_of_content stop ≡ false) }
    ensures count { F.fault_count files.old ≤ F.fault_count files.new }
    ensures content { F.content files.new ≡ F.content files.old }
    ensures asked { AsksFirst (F.asked files.old) (F.asked files.new) (name.now ∷ []) }
    ensures asked_whole { OnOk result (F.asked files.new ≡ asks (name.now ∷ []) (F.asked files.old)) }
{
    match files.read(alloc, name, FILE_LIMIT) {
        Ok(octets) => Ok(octets),
        Err(FileRefusal::Failed) => Err(Stop::File),
        Err(FileRefusal::TooLong { size }) => Err(Stop::TooLong { size }),
        Err(FileRefusal::Memory) => Err(Stop::Memory),
    }
}

// The run in the octets of both files.
fn both(alloc: Global, config: &[u8], script: &[u8]) -> Result<Run, Stop>
    requires { length script.now ≤ 1048576 }
    ensures plan { Plans (configured (config_in config.now) (script_in script.now)) result }
    ensures fault { IfErr result (λ stop. stop ≢ File) }
{
    let config = match read_config(alloc, config) {
        Ok(config) => config,
        Err(ConfigRefusal::ConfigWrong { key }) => return Err(Stop::Config { key }),
        Err(ConfigRefusal::Memory) => return Err(Stop::Memory),
    };
    match read_script(alloc, script) {
        Ok(script) => Ok(Run { config, script }),
        Err(ScriptRefusal::TooLong { size }) => Err(Stop::TooLong { size: size as u64 }),
        Err(ScriptRefusal::ScriptWrong { line }) => Err(Stop::Script { line }),
        Err(ScriptRefusal::Memory) => Err(Stop::Memory),
    }
}
