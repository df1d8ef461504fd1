//! `quick` and `build`: pack by a configuration. Definitions: `specs/Packing.antt`.

ghost use Rattle.std.specs.Prelude.{◌≡◌, IfOk, length};
ghost use Rattle.app_config.specs.Ready.{AreTogether};
ghost use Rattle.build_plan.specs.Deciding.{OpensFileNames};
ghost use Rattle.build_plan.specs.Steps.{IsStepAnswer};
ghost use Rattle.deliveries.specs.Delivery.{IsAnswerProbed};
ghost use Rattle.ports.specs.View.{OnlyReads};
ghost use Rattle.refusals.specs.Lines.{done_line};
ghost use Rattle.appdir_cli.specs.Packing.{Packs, PacksAlone, PacksBy};

use app_config::{Config, quick_config};
use appdir_build::{BuildStop, Built, build};
use command_words::{Build, Quick};
use config_files::config_at;
use deliveries::{Answer, Whole};
use path_text::{Abs, NoMemory};
use ports::Tree;
use refusals::done_text;
use std::alloc::Global;

/// `quick PROGRAM OUT [NAME ..]`: packs one program without a desktop entry.
pub fn quick<T: Tree>(alloc: Global, tree: &mut T, command: &Quick) -> Result<Answer, BuildStop>
    ensures answer { IsStepAnswer (T.seen tree.old) (T.seen tree.new)
        (λ world outcome. PacksAlone world command.now outcome) result }
    ensures probed { IfOk result (IsAnswerProbed (T.seen tree.old).told) }
    ensures only_reads { OnlyReads (T.seen tree.old) (T.seen tree.new) }
{
    match quick_config(alloc, &command.program, command.names.as_slice()) {
        Ok(config) => pack(alloc, tree, &config, &command.out),
        Err(_) => Err(BuildStop::NoMemory),
    }
}

/// `build CONFIG OUT`: packs by the configuration that lies at a path.
pub fn build_by<T: Tree>(alloc: Global, tree: &mut T, command: &Build) -> Result<Answer, BuildStop>
    ensures answer { IsStepAnswer (T.seen tree.old) (T.seen tree.new)
        (λ world outcome. PacksBy world command.now outcome) result }
    ensures probed { IfOk result (IsAnswerProbed (T.seen tree.old).told) }
    ensures only_reads { OnlyReads (T.seen tree.old) (T.seen tree.new) }
{
    match config_at(alloc, tree, &command.config) {
        Ok(config) => pack(alloc, tree, &config, &command.out),
        Err(stop) => Err(stop),
    }
}

/// Packs by a configuration.
fn pack<T: Tree>(
    alloc: Global,
    tree: &mut T,
    config: &Config,
    out: &Abs,
) -> Result<Answer, BuildStop>
    requires opens { OpensFileNames config.now }
    requires entry { AreTogether config.now.desktop config.now.icon }
    ensures answer { IsStepAnswer (T.seen tree.old) (T.seen tree.new)
        (λ world outcome. Packs world config.now out.now outcome) result }
    ensures probed { IfOk result (IsAnswerProbed (T.seen tree.old).told) }
    ensures only_reads { OnlyReads (T.seen tree.old) (T.seen tree.new) }
{
    match build(alloc, config, tree) {
        Ok(built) => match whole_of(alloc, out, built) {
            Ok(whole) => Ok(Answer::Packs(whole)),
            Err(_) => Err(BuildStop::NoMemory),
        },
        Err(stop) => Err(stop),
    }
}

/// The directory that is built, where it is written, and the line that says how many files it has.
fn whole_of(alloc: Global, out: &Abs, built: Built) -> Result<Whole, NoMemory>
    ensures place { IfOk result (λ whole. whole.place ≡ out.now) }
    ensures items { IfOk result (λ whole. whole.items ≡ built.items) }
    ensures line { IfOk result (λ whole. whole.line
        ≡ done_line (length built.items) built.bundled built.hosts) }
{
    let files = built.items.as_slice().len();
    let line = done_text(alloc, files, built.bundled as usize, built.hosts as usize)?;
    Ok(Whole {
        place: out.copy(alloc)?,
        items: built.items,
        line,
    })
}
