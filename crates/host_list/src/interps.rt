//! The interpreters of the programs, each once, as `specs/Recording.antt` says.
//!
//! System V gABI, Program Interpreter.

ghost use Rattle.std.specs.Prelude.{◌≡◌, ◌<◌, All, IfOk, IsSome, OnOk, Some};
ghost use Rattle.std.specs.List.{filter_map, list_any};
ghost use Rattle.std.specs.Option.{option_copied};
ghost use Rattle.std.specs.Str.{bytes_eq};
ghost use Rattle.load_model.specs.Runs.{IsRunOver};
ghost use Rattle.load_model.specs.declared.runs.Run.{Run};
ghost use Rattle.host_list.specs.Recording.{each_path, program_interp, with_new_path};

use load_model::{Face, List, NoMemory, Run};
use path_text::{Abs, PathFault};
use std::alloc::Global;

/// The interpreters, in normal form.
#[tactic(auto, unfolding(crate::specs::Recording::each_path))]
pub(crate) fn interps_of(alloc: Global, faces: &[Face], runs: &[Run]) -> Result<List<Abs>, NoMemory>
    requires runs { All (IsRunOver faces.now) runs.now }
    requires interps { All (λ (run : Run). IsSome (program_interp faces.now run)) runs.now }
    ensures { IfOk result
        (λ paths. paths ≡ each_path (filter_map (program_interp faces.now) runs.now)) }
{
    let mut paths = List::new(alloc);
    'runs: for run in runs {
        let path = interp_of(alloc, faces, run)?;
        add_path(&mut paths, path)?;
    }
    Ok(paths)
}

/// Adds a path, unless it is there.
fn add_path(paths: &mut List<Abs>, path: Abs) -> Result<(), NoMemory>
    ensures { OnOk result (paths.new ≡ with_new_path paths.old path) }
{
    if has_path(paths.as_slice(), &path) {
        return Ok(());
    }
    paths.push(path)
}

fn has_path(paths: &[Abs], path: &Abs) -> bool
    ensures { result ≡ list_any (λ p. bytes_eq p path.now) paths.now }
{
    paths.iter().any(|known| known.as_str().as_bytes() == path.as_str().as_bytes())
}

/// The interpreter of a program, in normal form.
fn interp_of(alloc: Global, faces: &[Face], run: &Run) -> Result<Abs, NoMemory>
    requires run { IsRunOver faces.now run.now }
    requires interp { IsSome (program_interp faces.now run.now) }
    ensures { IfOk result (λ path. program_interp faces.now run.now ≡ Some path) }
{
    let face = run.face_of(faces, 0);
    match &face.interp {
        Some(text) => match Abs::read(alloc, text.as_bytes()) {
            Ok(path) => Ok(path),
            Err(_) => Err(NoMemory),
        },
        None => Err(NoMemory),
    }
}
