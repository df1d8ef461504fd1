//! Laws of the programs of a package, each the contract of a function that does nothing.

ghost use Rattle.std.specs.Prelude.{◌≡◌, ℕ, List, All, Some, slice_get};
ghost use Rattle.app_config.specs.declared.config.Config.{Config};
ghost use Rattle.appdir_build.specs.Outcome.{IsPackage, Package};
ghost use Rattle.build_laws.specs.Sources.{IsSource};
ghost use Rattle.build_plan.specs.Building.{starts_of};
ghost use Rattle.build_runs.specs.declared.programs.Start.{Start};
ghost use Rattle.host_checks.specs.Hosting.{MeetsRecord};
ghost use Rattle.load_model.specs.World.{World};
ghost use Rattle.packed_programs.specs.Everywhere.{AreImagesKept, IsPackedAt, ProgramRuns, RunsOnHost};
ghost use Rattle.path_text.specs.Path.{IsNormalPath};

use read_records::record_files_are_read_again;

/// Each program of a package runs where it was packed, and everywhere the same: on each host that
/// meets the record which is read of the package, and beside its original. Its objects are written
/// with their memory.
pub fn packed_programs_run_same()
    ensures programs { (world : World) (config : Config) (made : Package)
        (ready : IsPackage world config made) → IsSource world config
        → (number : ℕ) (start : Start) → slice_get (starts_of config) number ≡ Some start
        → ProgramRuns world config ready.building made.files number start }
    ensures images { (world : World) (config : Config) (made : Package)
        (ready : IsPackage world config made) → IsSource world config
        → AreImagesKept world ready.building }
{
    record_files_are_read_again();
}

/// Where a host meets the record that lies at a place, and the directory of a package lies there,
/// each of its programs runs there as it ran where it was packed.
pub fn checked_hosts_run_packed_programs()
    ensures { (source host : World) (config : Config) (made : Package)
        (ready : IsPackage source config made) → IsSource source config
        → (place : List ℕ) (dirs : List (List ℕ)) → IsNormalPath place → All IsNormalPath dirs
        → IsPackedAt host place dirs made.files → MeetsRecord host place dirs
        → (number : ℕ) (start : Start) → slice_get (starts_of config) number ≡ Some start
        → RunsOnHost config ready.building made.files host dirs place number start }
{
    record_files_are_read_again();
}
