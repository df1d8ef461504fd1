//! Laws of the record of a build, each the contract of a function that does nothing.

ghost use Rattle.std.specs.Prelude.{◌≡◌};
ghost use Rattle.app_config.specs.declared.config.Config.{Config};
ghost use Rattle.build_laws.specs.Sources.{IsSource};
ghost use Rattle.build_plan.specs.Building.{Building, IsBuilding};
ghost use Rattle.build_texts.specs.Texts.{record_in};
ghost use Rattle.host_record.specs.Canonical.{IsCanonical, IsOfBytes};
ghost use Rattle.host_record.specs.Grammar.{Says, record_text};
ghost use Rattle.host_record.specs.declared.records.Record.{Record};
ghost use Rattle.load_model.specs.World.{World};

use host_record::{one_reading, written_is_read};

/// The text that is written of the record of a build says this record, and no other.
pub fn records_are_read_again()
    ensures said { (world : World) (config : Config) (b : Building) → IsSource world config
        → IsBuilding world config b → Says (record_text (record_in b)) (record_in b) }
    ensures only { (world : World) (config : Config) (b : Building) (r : Record)
        → IsSource world config → IsBuilding world config b
        → Says (record_text (record_in b)) r → r ≡ record_in b }
{
    written_is_read();
    one_reading();
}

/// The record of a build is one that has a single text, and what it names is bytes.
pub fn records_are_canonical()
    ensures canonical { (world : World) (config : Config) (b : Building)
        → IsBuilding world config b → IsCanonical (record_in b) }
    ensures bytes { (world : World) (config : Config) (b : Building) → IsSource world config
        → IsBuilding world config b → IsOfBytes (record_in b) }
{}
