//! Where tools and data files come to lie, each at a place of its own. Definitions:
//! `specs/Reading.antt`.

ghost use Rattle.std.specs.Prelude.{◌≡◌, ◌++◌, [], codes, IfOk, OnOk, map, option_map};
ghost use Rattle.answers.specs.Answers.{TellsBy};
ghost use Rattle.config_text.specs.Faults.{said_of_config};
ghost use Rattle.config_text.specs.declared.faults.ConfigFault.TheVariants.{TwoTargets};
ghost use Rattle.config_text.specs.Reading.{repeated, targets_of, two_targets};

use crate::faults::{ConfigFault, two_targets};
use app_config::{Data, Program};
use load_model::{List, Name, NoMemory};
use std::alloc::Global;
use text_sets::TextSet;

/// Whether no two tools or data files come to lie at one place.
pub(crate) fn check_targets(
    alloc: Global,
    tools: &[Program],
    files: &[Data],
) -> Result<(), ConfigFault>
    ensures { TellsBy said_of_config result (two_targets tools.now files.now) }
{
    match targets_of(alloc, tools, files) {
        Ok(targets) => check_distinct(alloc, targets.as_slice()),
        Err(_) => Err(ConfigFault::NoMemory),
    }
}

fn check_distinct(alloc: Global, targets: &[Name]) -> Result<(), ConfigFault>
    ensures { TellsBy said_of_config result (option_map TwoTargets (repeated [] targets.now)) }
{
    let mut before = TextSet::new(alloc);
    'look: for target in targets {
        if before.contains(target.as_bytes()) {
            return Err(two_targets(alloc, target.as_bytes()));
        }
        before.add(alloc, target.as_bytes())?;
    }
    Ok(())
}

/// The places of the tools and then of the data files.
#[tactic(auto, unfolding(crate::specs::Reading::targets_of))]
fn targets_of(alloc: Global, tools: &[Program], files: &[Data]) -> Result<List<Name>, NoMemory>
    ensures { IfOk result (λ targets. targets ≡ targets_of tools.now files.now) }
{
    let mut targets = List::new(alloc);
    push_tools(alloc, &mut targets, tools)?;
    push_files(alloc, &mut targets, files)?;
    Ok(targets)
}

fn push_tools(alloc: Global, targets: &mut List<Name>, tools: &[Program]) -> Result<(), NoMemory>
    ensures { OnOk result (targets.new ≡ targets.old ++ map (λ tool. codes "usr/bin/" ++ tool.name) tools.now) }
{
    'tools: for tool in tools {
        targets.push(tool_target(alloc, tool.name.as_bytes())?)?;
    }
    Ok(())
}

fn push_files(alloc: Global, targets: &mut List<Name>, files: &[Data]) -> Result<(), NoMemory>
    ensures { OnOk result (targets.new ≡ targets.old ++ map (λ file. file.to) files.now) }
{
    'files: for file in files {
        targets.push(Name::from_bytes(alloc, file.to.as_str().as_bytes())?)?;
    }
    Ok(())
}

/// Where a tool of this name lies.
fn tool_target(alloc: Global, name: &[u8]) -> Result<Name, NoMemory>
    ensures { IfOk result (λ target. target ≡ codes "usr/bin/" ++ name.now) }
{
    let mut target = Vec::from_slice(alloc, b"usr/bin/")?;
    target.extend_from_slice(name)?;
    Name::from_bytes(alloc, target.as_slice())
}
