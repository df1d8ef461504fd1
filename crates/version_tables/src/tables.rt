//! What the dynamic table says of the version tables, and its texts.

ghost use Rattle.std.specs.Prelude.{◌≡◌, [], nat_le};
ghost use Rattle.std.specs.Option.{option_copied, unwrap_or};
ghost use Rattle.answers.specs.Answers.{TellsBy};
ghost use Rattle.answers.specs.First.{some_where};
ghost use Rattle.byte_view.specs.Checks.{flaw};
ghost use Rattle.byte_view.specs.Dynamic.{string_at};
ghost use Rattle.dyn_table.specs.Table.{IsTableOf};
ghost use Rattle.load_model.specs.VersionTables.{record_count, text_of};
ghost use Rattle.version_tables.specs.Faults.{version_fault_flaw};

use crate::faults::{VersionFault, flawed};
use byte_view::flaws::STRING_PLACE;
use dyn_table::Dyn;

/// How many records a table has, of which the dynamic table says where it is and how many they are.
pub(crate) fn record_count(table: Option<u64>, said: Option<u64>) -> u64
    ensures { result ≡ record_count table said }
{
    if table.is_some() {
        said.unwrap_or(0)
    } else {
        0
    }
}

/// Does a place lie in a string table of this size?
pub(crate) fn check_text(size: u64, place: u32) -> Result<(), VersionFault>
    ensures { TellsBy version_fault_flaw result
        (some_where (nat_le size place) (flaw STRING_PLACE place 0)) }
{
    let place = u64::from(place);
    if size <= place {
        return Err(flawed(STRING_PLACE, place, 0));
    }
    Ok(())
}

/// The text at a place of the string table, empty where there is none.
pub(crate) fn text_of<'a>(table: &Dyn, bytes: &'a [u8], place: u32) -> &'a [u8]
    requires { IsTableOf table.now bytes.now }
    ensures { result.now ≡ text_of bytes.now place }
{
    match table.text(bytes, u64::from(place)) {
        Some(text) => text,
        None => &[],
    }
}
