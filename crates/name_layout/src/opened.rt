//! The names that programs open, each with the identity of its object.
//!
//! Said in `specs/Openings.antt`.

ghost use Rattle.std.specs.Prelude.{◌≡◌, ◌++◌, All, IfOk, OnOk, length, map};
ghost use Rattle.std.specs.Option.{option_map};
ghost use Rattle.name_layout.specs.Opened.{as_opening};
ghost use Rattle.name_layout.specs.Openings.{opening, openings, openings_of};

use load_model::{Name, NoMemory, Run};
use std::alloc::Global;

/// A name that a program opens, and the identity of the object that it went to.
#[derive(Clone, Copy)]
pub struct Opened<'a> {
    pub name: &'a Name,
    pub root: &'a Name,
}

/// The opened names, by program and then in the order of opening.
#[tactic(auto, unfolding(crate::specs::Openings::openings))]
pub fn openings<'a>(alloc: Global, runs: &'a [Run]) -> Result<Vec<Opened<'a>>, NoMemory>
    requires { All (λ run. length run.roots ≡ length run.opens) runs.now }
    ensures { IfOk result (λ all. map as_opening all.items ≡ openings runs.now) }
{
    let mut all = Vec::new(alloc);
    for run in runs {
        add_openings(&mut all, run)?;
    }
    Ok(all)
}

/// Adds the opened names of a program.
fn add_openings<'a>(all: &mut Vec<Opened<'a>>, run: &'a Run) -> Result<(), NoMemory>
    requires { length run.now.roots ≡ length run.now.opens }
    ensures { OnOk result (map as_opening all.new.items
        ≡ map as_opening all.old.items ++ openings_of run.now) }
{
    let roots = run.roots.as_slice();
    for (place, name) in run.opens.as_slice().iter().enumerate() {
        if let Some(opened) = opening(run, name, roots[place]) {
            match all.push(opened) {
                Ok(()) => {}
                Err(_) => return Err(NoMemory),
            }
        }
    }
    Ok(())
}

/// A name that a program opens, which went to the object of this number.
fn opening<'a>(run: &'a Run, name: &'a Name, root: u32) -> Option<Opened<'a>>
    ensures { option_map as_opening result ≡ opening run.now (name.now, root) }
{
    match run.objs.as_slice().get(root as usize) {
        Some(obj) => Some(Opened {
            name,
            root: &obj.id,
        }),
        None => None,
    }
}
