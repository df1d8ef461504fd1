//! The run paths of programs and libraries, where they are used.
//!
//! Said in `specs/Changing.antt`.

ghost use Rattle.std.specs.Prelude.{◌≡◌, ◌||◌, IfOk};
ghost use Rattle.std.specs.List.{list_any};
ghost use Rattle.lib_closure.specs.Seen.{standing};
ghost use Rattle.answers.specs.First.{some_where};
ghost use Rattle.object_changes.specs.Changing.{has_bundled_need, has_bundled_root, run_path_of_libs};
ghost use Rattle.object_changes.specs.Names.{goes_to_bundled};
ghost use Rattle.object_changes.specs.OfNames.{of_names};

use crate::object_names::ObjectNames;
use lib_closure::Seen;
use load_model::{Name, NoMemory};
use std::alloc::Global;

/// The run path of a program.
pub fn run_path_of_program<'a>(
    alloc: Global,
    names: &ObjectNames<'a>,
    seen: &Seen<'a>,
    run_path: &[u8],
) -> Result<Option<Name>, NoMemory>
    ensures { IfOk result (λ path. path ≡ some_where
        (of_names has_bundled_need names.now (standing seen.now)
        || of_names has_bundled_root names.now (standing seen.now)) run_path.now) }
{
    if has_bundled_need(names, seen) || has_bundled_root(names, seen) {
        return Ok(Some(Name::from_bytes(alloc, run_path)?));
    }
    Ok(None)
}

/// The run path of a library.
pub fn run_path_of_lib<'a>(
    alloc: Global,
    names: &ObjectNames<'a>,
    seen: &Seen<'a>,
) -> Result<Option<Name>, NoMemory>
    ensures { IfOk result (λ path. path ≡ some_where
        (of_names has_bundled_need names.now (standing seen.now)) run_path_of_libs) }
{
    if has_bundled_need(names, seen) {
        return Ok(Some(Name::from_bytes(alloc, b"$ORIGIN")?));
    }
    Ok(None)
}

/// Whether an object needs a bundled library.
#[tactic(auto, unfolding(crate::specs::Changing::has_bundled_need))]
fn has_bundled_need<'a>(names: &ObjectNames<'a>, seen: &Seen<'a>) -> bool
    ensures { result ≡ of_names has_bundled_need names.now (standing seen.now) }
{
    any_bundled(names, seen, seen.targets())
}

/// Whether a program opens a bundled library.
#[tactic(auto, unfolding(crate::specs::Changing::has_bundled_root))]
fn has_bundled_root<'a>(names: &ObjectNames<'a>, seen: &Seen<'a>) -> bool
    ensures { result ≡ of_names has_bundled_root names.now (standing seen.now) }
{
    any_bundled(names, seen, seen.list.run.roots.as_slice())
}

/// Whether one of the objects of these numbers is a bundled library.
fn any_bundled<'a>(names: &ObjectNames<'a>, seen: &Seen<'a>, numbers: &[u32]) -> bool
    ensures { result ≡ list_any (of_names goes_to_bundled names.now (standing seen.now))
        numbers.now }
{
    for number in numbers {
        if names.goes_to_bundled(seen, *number) {
            return true;
        }
    }
    false
}
