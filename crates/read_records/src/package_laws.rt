//! Laws of the file that has the record of a build, each the contract of a function that does
//! nothing.

ghost use Rattle.std.specs.Prelude.{◌≡◌, map};
ghost use Rattle.std.specs.List.{Contains};
ghost use Rattle.app_config.specs.declared.config.Config.{Config};
ghost use Rattle.host_checks.specs.Hosting.{record_place};
ghost use Rattle.appdir_build.specs.Outcome.{IsPackage, Package};
ghost use Rattle.build_laws.specs.Sources.{IsSource};
ghost use Rattle.build_texts.specs.Texts.{record_in};
ghost use Rattle.host_record.specs.Grammar.{Says};
ghost use Rattle.host_record.specs.declared.records.Record.{Record};
ghost use Rattle.load_model.specs.World.{World};
ghost use Rattle.ports.specs.declared.folders.MemFile.{MemFile};

use crate::record_laws::records_are_read_again;

/// A package has a file at the place of the record, and its bytes say the record of the build, and
/// no other.
pub fn record_files_are_read_again()
    ensures there { (world : World) (config : Config) (made : Package)
        → IsPackage world config made
        → Contains (map (λ (file : MemFile). file.path) made.files) record_place }
    ensures said { (world : World) (config : Config) (made : Package)
        (ready : IsPackage world config made) → IsSource world config → (file : MemFile)
        → Contains made.files file → file.path ≡ record_place
        → Says file.bytes (record_in ready.building) }
    ensures only { (world : World) (config : Config) (made : Package)
        (ready : IsPackage world config made) → IsSource world config → (file : MemFile)
        → Contains made.files file → file.path ≡ record_place → (r : Record)
        → Says file.bytes r → r ≡ record_in ready.building }
{
    records_are_read_again();
}
