//! The configuration of a build, read from a file of the tree. Definitions: `specs/Configuring.antt`
//! and `specs/Reading.antt`.

ghost use Rattle.std.specs.Prelude.{◌≡◌, IfOk, length};
ghost use Rattle.answers.specs.Told.{WhereTold};
ghost use Rattle.app_config.specs.Ready.{IsReady};
ghost use Rattle.build_plan.specs.Steps.{IsStepAnswer};
ghost use Rattle.ports.specs.Reading.{bytes_at};
ghost use Rattle.ports.specs.View.{OnlyReads};
ghost use Rattle.config_files.specs.Configuring.{Configures, refusal_of};
ghost use Rattle.config_files.specs.Reading.{IsAbsentStop, IsTextAnswer, ReadsText, stop_by};

use app_config::Config;
use build_plan::BuildStop;
use config_text::{ConfigFault, read_config};
use path_text::Abs;
use ports::{Found, ProbeStop, Tree};
use refusals::{ConfigRefusal, Refusal};
use std::alloc::Global;
use tree_opener::{ReadStop, read_whole};

/// The configuration that lies at a path, or why there is none.
pub fn config_at<T: Tree>(alloc: Global, tree: &mut T, path: &Abs) -> Result<Config, BuildStop>
    ensures answer { IsStepAnswer (T.seen tree.old) (T.seen tree.new)
        (λ world outcome. Configures world path.now outcome) result }
    ensures ready { IfOk result IsReady }
    ensures only_reads { OnlyReads (T.seen tree.old) (T.seen tree.new) }
{
    match tree.probe(alloc, path) {
        Ok(Found::Absent) => Err(absent(alloc, path)),
        Ok(Found::File { id: _, len }) => config_in(alloc, tree, path, len),
        Err(ProbeStop::Failed) => Err(BuildStop::Read),
        Err(ProbeStop::NoMemory) => Err(BuildStop::NoMemory),
    }
}

/// No file lies at the path.
fn absent(alloc: Global, path: &Abs) -> BuildStop
    ensures { IsAbsentStop path.now result }
{
    match path.copy(alloc) {
        Ok(path) => BuildStop::Refused(Refusal::Config(ConfigRefusal::ConfigAbsent(path))),
        Err(_) => BuildStop::NoMemory,
    }
}

/// The configuration in the file of this length.
fn config_in<T: Tree>(
    alloc: Global,
    tree: &mut T,
    path: &Abs,
    len: u64,
) -> Result<Config, BuildStop>
    requires { WhereTold (T.seen tree.old).told (λ world. length (bytes_at world path.now) ≡ len) }
    ensures answer { IsStepAnswer (T.seen tree.old) (T.seen tree.new)
        (λ world outcome. ReadsText (bytes_at world path.now) outcome) result }
    ensures ready { IfOk result IsReady }
    ensures only_reads { OnlyReads (T.seen tree.old) (T.seen tree.new) }
{
    match read_whole(alloc, tree, path, len) {
        Ok(bytes) => config_of(alloc, bytes.as_slice()),
        Err(ReadStop::Failed) => Err(BuildStop::Read),
        Err(ReadStop::NoMemory) => Err(BuildStop::NoMemory),
    }
}

/// The configuration that a text says.
fn config_of(alloc: Global, text: &[u8]) -> Result<Config, BuildStop>
    ensures answer { IsTextAnswer text.now result }
    ensures ready { IfOk result IsReady }
{
    match read_config(alloc, text) {
        Ok(config) => Ok(config),
        Err(fault) => Err(stop_of(fault)),
    }
}

/// What a fault of the text ends a build with.
fn stop_of(fault: ConfigFault) -> BuildStop
    ensures { result ≡ stop_by (refusal_of fault) }
{
    let refusal = match fault {
        ConfigFault::NotToml => ConfigRefusal::NotToml,
        ConfigFault::UnknownKey(key) => ConfigRefusal::UnknownKey(key),
        ConfigFault::MissingKey(key) => ConfigRefusal::MissingKey(key),
        ConfigFault::WrongKind(key) => ConfigRefusal::WrongKind(key),
        ConfigFault::BadPath(key) => ConfigRefusal::BadPath(key),
        ConfigFault::BadName { key, text } => ConfigRefusal::BadName(text, key),
        ConfigFault::TwoTargets(target) => ConfigRefusal::TwoTargets(target),
        ConfigFault::NoMemory => return BuildStop::NoMemory,
    };
    BuildStop::Refused(Refusal::Config(refusal))
}
