//! File names for all bundled libraries.
//!
//! Opened names are said in `specs/Openings.antt`, names in `specs/Layouts.antt`.

ghost use Rattle.std.specs.Prelude.{◌≡◌, ◌≢◌, All, AllPairs, IfOk, IsUtf8, Ok, length};
ghost use Rattle.std.specs.Result.{result_err};
ghost use Rattle.answers.specs.Answers.{TellsBy};
ghost use Rattle.lib_closure.specs.Splits.{split_of};
ghost use Rattle.load_model.specs.Runs.{IsRunOver};
ghost use Rattle.path_text.specs.FileName.{IsFileName};
ghost use Rattle.name_layout.specs.Laws.{AreOffList, HaveTextKeys};
ghost use Rattle.name_layout.specs.Layouts.{AreNames, first_name_stop, said_of_name};

use crate::keys::first_bad_key;
use crate::layouts::Layout;
use crate::opened_names::OpenedNames;
use crate::opening_stops::first_opening_stop;
use crate::stops::NameStop;
use crate::taken::names_in_order;
use lib_closure::Split;
use load_model::{Face, List, Name, NoMemory, Run};
use std::alloc::Global;

/// A file name for each bundled library of a split of these runs; or the first name that is
/// refused, first of those that are opened and then of the keys. The names are distinct file names,
/// and none is on the host list; they are texts where the keys and the opened names are.
///
/// The time grows with the libraries, the opened names and the host list, and not with their
/// product.
pub fn name_all(
    alloc: Global,
    faces: &[Face],
    runs: &[Run],
    split: &Split,
    names: &[Name],
) -> Result<Layout, NameStop>
    requires runs { All (IsRunOver faces.now) runs.now }
    requires split { split_of faces.now runs.now names.now ≡ Ok split.now }
    requires opened { All (λ run. All IsFileName run.opens) runs.now }
    ensures answer { TellsBy said_of_name result
        (first_name_stop faces.now runs.now split.now names.now) }
    ensures names { IfOk result (λ layout. AreNames faces.now runs.now split.now names.now
        layout.libs) }
    ensures off_list { IfOk result (λ layout. AreOffList names.now layout.libs) }
    ensures distinct { IfOk result (λ layout. AllPairs (λ a b. a ≢ b) layout.libs) }
    ensures file_names { IfOk result (λ layout. All IsFileName layout.libs) }
    ensures texts { IfOk result (λ layout. HaveTextKeys faces.now split.now
        → All (λ run. All IsUtf8 run.opens) runs.now → All IsUtf8 layout.libs) }
{
    match names_or_stop(alloc, faces, runs, split, names) {
        Ok(Ok(libs)) => Ok(Layout { libs }),
        Ok(Err(stop)) => Err(stop),
        Err(_) => Err(NameStop::NoMemory),
    }
}

/// The names of the libraries, or the first name that is refused.
#[tactic(auto, unfolding(crate::specs::Layouts::first_name_stop))]
fn names_or_stop(
    alloc: Global,
    faces: &[Face],
    runs: &[Run],
    split: &Split,
    names: &[Name],
) -> Result<Result<List<Name>, NameStop>, NoMemory>
    requires { All (λ run. length run.roots ≡ length run.opens) runs.now }
    ensures stop { IfOk result (λ answer. result_err answer
        ≡ first_name_stop faces.now runs.now split.now names.now) }
    ensures names { IfOk result (λ answer. IfOk answer (λ layout.
        AreNames faces.now runs.now split.now names.now layout)) }
{
    let opened = OpenedNames::of(alloc, runs, split, names)?;
    if let Some(stop) = first_opening_stop(alloc, &opened)? {
        return Ok(Err(stop));
    }
    if let Some(stop) = first_bad_key(alloc, faces, &opened)? {
        return Ok(Err(stop));
    }
    Ok(Ok(names_in_order(alloc, faces, &opened)?))
}
