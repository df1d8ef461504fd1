//! Where the objects of a directory come from, and how many there are.

ghost use Rattle.std.specs.Prelude.{◌≡◌, ◌+◌, ◌++◌, IfOk, OnOk, map};
ghost use Rattle.std.specs.List.{sum_by};
ghost use Rattle.appdir_build.specs.Outcome.{object_count, path_of_member};

use build_plan::Plan;
use lib_closure::Member;
use load_model::{List, NoMemory, Run};
use path_text::Abs;
use std::alloc::Global;

/// Where the bundled libraries and the programs come from.
pub fn sources_of(alloc: Global, plan: &Plan) -> Result<List<Abs>, NoMemory>
    ensures { IfOk result (λ sources. sources
        ≡ map path_of_member (plan.now.split.libs ++ plan.now.split.programs)) }
{
    let mut sources = List::new(alloc);
    push_paths(alloc, plan.split.libs.as_slice(), &mut sources)?;
    push_paths(alloc, plan.split.programs.as_slice(), &mut sources)?;
    Ok(sources)
}

fn push_paths(alloc: Global, members: &[Member], paths: &mut List<Abs>) -> Result<(), NoMemory>
    ensures { OnOk result (paths.new ≡ paths.old ++ map path_of_member members.now) }
{
    for member in members {
        paths.push(member.path.copy(alloc)?)?;
    }
    Ok(())
}

/// How many objects the load lists have together.
pub fn count_objects(runs: &[Run]) -> Result<u32, NoMemory>
    ensures { IfOk result (λ count. count ≡ sum_by object_count runs.now) }
{
    let mut count = 0;
    for run in runs {
        count = sum_of(count, count_of(run.objs.as_slice().len())?)?;
    }
    Ok(count)
}

/// A count, where it has one: more are want of memory.
pub fn count_of(len: usize) -> Result<u32, NoMemory>
    ensures { IfOk result (λ count. count ≡ len) }
{
    match u32::try_from(len) {
        Ok(count) => Ok(count),
        Err(_) => Err(NoMemory),
    }
}

/// A sum, where it has one: more are want of memory.
pub fn sum_of(a: u32, b: u32) -> Result<u32, NoMemory>
    ensures { IfOk result (λ sum. sum ≡ a + b) }
{
    match a.checked_add(b) {
        Some(sum) => Ok(sum),
        None => Err(NoMemory),
    }
}
