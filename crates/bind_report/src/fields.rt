//! Numbers, places, classes and versions as fields of a line, as `specs/Report.antt` says.

ghost use Rattle.std.specs.Prelude.{◌≡◌, ◌++◌, OnOk};
ghost use Rattle.std.specs.Fmt.{decimal};
ghost use Rattle.load_model.specs.Bindings.{wanted_version};
ghost use Rattle.load_model.specs.Escaping.{version_text};
ghost use Rattle.bind_report.specs.Report.{class_text, place_text};

use load_model::{Class, Name, NoMemory, Ver, escape_onto};
use std::alloc::Global;

/// Adds a number in base 10.
pub fn push_number(alloc: Global, line: &mut Vec<u8>, number: usize) -> Result<(), NoMemory>
    ensures { OnOk result (line.new.items ≡ line.old.items ++ decimal number) }
{
    let digits = format!(in alloc; "{number}")?;
    line.extend_from_slice(digits.as_bytes())?;
    Ok(())
}

/// Adds the place of an object. The place `-` stands for none.
#[tactic(auto, unfolding(crate::specs::Report::place_text))]
pub fn push_place(line: &mut Vec<u8>, place: &Name) -> Result<(), NoMemory>
    ensures { OnOk result (line.new.items ≡ line.old.items ++ place_text place.now) }
{
    if place.as_bytes() == b"-".as_slice() {
        line.extend_from_slice(b"-")?;
        return Ok(());
    }
    escape_onto(line, place.as_bytes())
}

/// Adds the name of a version, or `-` where none is wanted.
pub fn push_version(line: &mut Vec<u8>, version: &Ver) -> Result<(), NoMemory>
    ensures { OnOk result (line.new.items
        ≡ line.old.items ++ version_text (wanted_version version.now)) }
{
    match version {
        Ver::Named { name, .. } => escape_onto(line, name.as_bytes()),
        Ver::Local | Ver::Global => {
            line.extend_from_slice(b"-")?;
            Ok(())
        }
    }
}

/// The letter of a class.
pub fn class_word(class: Class) -> &'static [u8]
    ensures { result.now ≡ class_text class }
{
    match class {
        Class::Plain => b"p",
        Class::Call => b"c",
        Class::Copy => b"k",
    }
}
