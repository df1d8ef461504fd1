//! The versions of all runs, in order.
//!
//! Linux Standard Base, Symbol Versioning. The answer is said in `specs/Checking.antt`.

ghost use Rattle.std.specs.Prelude.{◌≡◌, All, IfErr, None, OnOk};
ghost use Rattle.build_runs.specs.Checking.{IsFirstUnmetRun};
ghost use Rattle.load_model.specs.Opening.{AreFew};
ghost use Rattle.load_model.specs.Runs.{IsRunOver};
ghost use Rattle.load_model.specs.VersionCheck.{first_unmet};

use load_model::{Face, Run};
use loader_replay::{ReplayStop, check};
use std::alloc::Global;

/// Whether the versions that the objects of all runs ask for are there; else the first that is not.
pub fn check_runs(alloc: Global, faces: &[Face], runs: &[Run]) -> Result<(), ReplayStop>
    requires runs { All (IsRunOver faces.now) runs.now }
    requires few { AreFew faces.now }
    ensures met { OnOk result (All (λ run. first_unmet faces.now run ≡ None) runs.now) }
    ensures stop { IfErr result (λ stop. IsFirstUnmetRun faces.now runs.now stop) }
{
    for run in runs {
        if let Err(stop) = check(alloc, faces, run) {
            return Err(stop);
        }
    }
    Ok(())
}
