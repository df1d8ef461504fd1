//! The names of the files that versions are asked of.
//!
//! Linux Standard Base, Symbol Versioning.

ghost use Rattle.std.specs.Prelude.{◌≡◌, None};
ghost use Rattle.std.specs.List.{find};
ghost use Rattle.answers.specs.Answers.{TellsBy};
ghost use Rattle.byte_view.specs.HeaderFlaws.{header_flaw};
ghost use Rattle.dyn_table.specs.Table.{IsTableOf};
ghost use Rattle.elf_face.specs.Faults.{flaw_of};
ghost use Rattle.elf_face.specs.Words.{is_asked, names_no_text_at, number_or_0};
ghost use Rattle.load_model.specs.Faces.{bad_version_file};
ghost use Rattle.load_model.specs.SymbolFlaws.{symbol_count};
ghost use Rattle.load_model.specs.VersionFlaws.{version_flaw};
ghost use Rattle.load_model.specs.VersionTables.{file_words_of};

use crate::faults::{FaceFault, bad_name};
use crate::texts::{is_text, text_of};
use byte_view::{u16_at, u32_at};
use dyn_table::Dyn;

/// The number of two bytes at a place, and 0 where the file ends before it does.
#[tactic(auto, unfolding(crate::specs::Words::number_or_0))]
fn half_or_0(bytes: &[u8], place: u64) -> u16
    ensures { result ≡ number_or_0 2 bytes.now place }
{
    match u16_at(bytes, place) {
        Some(half) => half,
        None => 0,
    }
}

/// The number of four bytes at a place, and 0 where the file ends before it does.
#[tactic(auto, unfolding(crate::specs::Words::number_or_0))]
fn word_or_0(bytes: &[u8], place: u64) -> u64
    ensures { result ≡ number_or_0 4 bytes.now place }
{
    match u32_at(bytes, place) {
        Some(word) => u64::from(word),
        None => 0,
    }
}

/// Is a version asked of the file that the word at this place names? The number of its versions
/// stands two bytes before.
fn is_asked(bytes: &[u8], file_word: u64) -> bool
    ensures { result ≡ is_asked bytes.now file_word }
{
    half_or_0(bytes, file_word.saturating_sub(2)) != 0
}

/// Is a version asked of the file that the word at this place names, and is its name no text?
fn names_no_text(table: &Dyn, bytes: &[u8], file_word: u64) -> bool
    requires { IsTableOf table.now bytes.now }
    ensures { result ≡ names_no_text_at bytes.now file_word }
{
    is_asked(bytes, file_word) && !is_text(text_of(table, bytes, word_or_0(bytes, file_word)))
}

/// The first of these places at which a word names a file whose name is no text.
fn bad_word(table: &Dyn, bytes: &[u8], file_words: &[u64]) -> Option<u64>
    requires { IsTableOf table.now bytes.now }
    ensures { result ≡ find (names_no_text_at bytes.now) file_words.now }
{
    file_words
        .iter()
        .copied()
        .find(|file_word| names_no_text(table, bytes, *file_word))
}

/// Are the names of the files of which versions are asked all UTF-8? `words` are the places of the
/// words that name the files of all needs.
#[tactic(auto, using(crate::proofs::VersionFiles::files_named))]
pub(crate) fn check_files(table: &Dyn, bytes: &[u8], words: &[u64]) -> Result<(), FaceFault>
    requires table { IsTableOf table.now bytes.now }
    requires headers { header_flaw bytes.now ≡ None }
    requires versions { version_flaw (symbol_count bytes.now) bytes.now ≡ None }
    requires words { words.now ≡ file_words_of bytes.now }
    ensures { TellsBy flaw_of result (bad_version_file bytes.now) }
{
    match bad_word(table, bytes, words) {
        Some(file_word) => Err(bad_name(word_or_0(bytes, file_word))),
        None => Ok(()),
    }
}
