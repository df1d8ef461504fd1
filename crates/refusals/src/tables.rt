//! The names of the tables of a file, by their numbers. Definitions: `specs/Tables.antt`.

ghost use Rattle.std.specs.Prelude.{◌≡◌, IfOk};
ghost use Rattle.std.specs.Option.{option_copied};
ghost use Rattle.std.specs.Fmt.{decimal};
ghost use Rattle.refusals.specs.Tables.{table_name, table_text};

use elf_rewrite::numbering::{
    DYNAMIC, GNU_HASH, HASH, HEADER, INTERP, SECTIONS, SEGMENTS, STRINGS, SYMBOLS, VERDEF, VERNEED,
    VERSYM,
};
use load_model::Text;
use path_text::NoMemory;
use std::alloc::Global;

/// The name of the table with this number, or the number where there is none.
#[tactic(auto, unfolding(crate::specs::Tables::table_text))]
pub fn table_text(alloc: Global, number: u8) -> Result<Text, NoMemory>
    ensures { IfOk result (λ text. text ≡ table_text number) }
{
    match table_name(number) {
        Some(name) => Text::from_bytes(alloc, name),
        None => number_text(alloc, number),
    }
}

fn number_text(alloc: Global, number: u8) -> Result<Text, NoMemory>
    ensures { IfOk result (λ text. text ≡ decimal number) }
{
    let text = format!(in alloc; "{number}")?;
    Text::from_bytes(alloc, text.as_bytes())
}

/// The name of the table with this number.
fn table_name(number: u8) -> Option<&'static [u8]>
    ensures { option_copied result ≡ table_name number }
{
    match number {
        HEADER => Some(b"header"),
        SEGMENTS => Some(b"segments"),
        INTERP => Some(b"interp"),
        DYNAMIC => Some(b"dynamic"),
        STRINGS => Some(b"strings"),
        SYMBOLS => Some(b"symbols"),
        VERSYM => Some(b"versym"),
        VERNEED => Some(b"verneed"),
        VERDEF => Some(b"verdef"),
        HASH => Some(b"hash"),
        GNU_HASH => Some(b"gnuhash"),
        SECTIONS => Some(b"sections"),
        _ => None,
    }
}
