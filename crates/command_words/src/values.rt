//! Words read as what they stand for: paths, names, directories and the size of a tree. Definitions:
//! `specs/Words.antt`.

ghost use Rattle.std.specs.Prelude.{◌≡◌, [], ◌∷◌, ◌++◌, IfOk, OnOk, map};
ghost use Rattle.std.specs.List.{list_all};
ghost use Rattle.path_text.specs.FileName.{is_file_name_text};
ghost use Rattle.clap.specs.Words.{found_of, rows_of};
ghost use Rattle.command_words.specs.Forms.{count_in, path_in, words_in};
ghost use Rattle.command_words.specs.Words.{IsDecimalOf, count_told, dirs_of, path_told, paths_told, tree_size};

use app_config::default_dirs;
use clap::ArgMatches;
use load_model::{List, Name};
use path_text::{Abs, NoMemory, PathFault, is_file_name};
use std::alloc::Global;

/// How many libraries a made tree may have.
const MOST: u32 = 1_000;

/// The path that the word of this name reads as, where it is one.
pub fn path_in(alloc: Global, found: &ArgMatches<'_>, id: &str) -> Result<Option<Abs>, NoMemory>
    ensures { IfOk result (λ path. path ≡ path_in id.now (rows_of (found_of found.now))) }
{
    match found.get_str(id) {
        Some(word) => read_path(alloc, word.as_bytes()),
        None => Ok(None),
    }
}

/// The paths that the words of this name read as, where all do.
pub fn paths_in(
    alloc: Global,
    found: &ArgMatches<'_>,
    id: &str,
) -> Result<Option<List<Abs>>, NoMemory>
    ensures { IfOk result
        (λ paths. paths ≡ paths_told (words_in id.now (rows_of (found_of found.now)))) }
{
    match found.get_strs(id) {
        Some(words) => read_paths(alloc, words),
        None => Ok(Some(List::new(alloc))),
    }
}

/// The words of this name, as many as there are.
pub fn names_in(alloc: Global, found: &ArgMatches<'_>, id: &str) -> Result<List<Name>, NoMemory>
    ensures { IfOk result (λ names. names ≡ words_in id.now (rows_of (found_of found.now))) }
{
    match found.get_strs(id) {
        Some(words) => read_names(alloc, words),
        None => Ok(no_names(alloc)),
    }
}

/// How many libraries the word of this name says.
pub fn count_in(alloc: Global, found: &ArgMatches<'_>, id: &str) -> Result<Option<u32>, NoMemory>
    ensures { IfOk result (λ count. count ≡ count_in id.now (rows_of (found_of found.now))) }
{
    match found.get_str(id) {
        Some(word) => read_count(alloc, word.as_bytes()),
        None => Ok(None),
    }
}

/// How many libraries a word says, where a tree may have so many.
fn read_count(alloc: Global, word: &[u8]) -> Result<Option<u32>, NoMemory>
    ensures { IfOk result (λ count. count ≡ count_told word.now) }
{
    let number = read_number(alloc, word)?;
    Ok(tree_size(number))
}

/// The number of which a word is the decimal form, if it has 32 bits.
fn read_number(alloc: Global, word: &[u8]) -> Result<Option<u32>, NoMemory>
    ensures { IfOk result (λ number. IsDecimalOf word.now number) }
{
    let Ok(digits) = str::from_utf8(word) else {
        return Ok(None);
    };
    let Ok(n) = digits.parse::<u32>() else {
        return Ok(None);
    };
    let again = format!(in alloc; "{n}")?;
    if again.as_str().as_bytes() == word {
        Ok(Some(n))
    } else {
        Ok(None)
    }
}

/// A number, where a tree may have so many libraries.
fn tree_size(number: Option<u32>) -> Option<u32>
    ensures { result ≡ tree_size number }
{
    match number {
        Some(n) if 1 <= n && n <= MOST => Some(n),
        _ => None,
    }
}

/// These directories, or the default ones where there are none.
pub fn given_dirs(alloc: Global, dirs: List<Abs>) -> Result<List<Abs>, NoMemory>
    ensures { IfOk result (λ given. given ≡ dirs_of dirs) }
{
    if dirs.as_slice().is_empty() {
        default_dirs(alloc)
    } else {
        Ok(dirs)
    }
}

/// The paths that the words read as, where all do.
#[tactic(auto, unfolding(crate::specs::Words::paths_told))]
fn read_paths(alloc: Global, words: &[&str]) -> Result<Option<List<Abs>>, NoMemory>
    ensures { IfOk result (λ paths. paths ≡ paths_told (map (λ w. w.now) words.now)) }
{
    let mut paths = List::new(alloc);
    for word in words {
        match read_path(alloc, word.as_bytes()) {
            Ok(Some(path)) => paths.push(path)?,
            Ok(None) => return Ok(None),
            Err(_) => return Err(NoMemory),
        }
    }
    Ok(Some(paths))
}

/// Whether each of these is a file name.
pub fn are_file_names(names: &[Name]) -> bool
    ensures { result ≡ list_all is_file_name_text names.now }
{
    names.iter().all(|name| is_file_name(name.as_bytes()))
}

fn read_path(alloc: Global, text: &[u8]) -> Result<Option<Abs>, NoMemory>
    ensures { IfOk result (λ path. path ≡ path_told text.now) }
{
    match Abs::read(alloc, text) {
        Ok(path) => Ok(Some(path)),
        Err(PathFault::NoMemory) => Err(NoMemory),
        Err(_) => Ok(None),
    }
}

fn read_names(alloc: Global, words: &[&str]) -> Result<List<Name>, NoMemory>
    ensures { IfOk result (λ names. names ≡ map (λ w. w.now) words.now) }
{
    let mut names = no_names(alloc);
    for word in words {
        push_text(alloc, &mut names, word)?;
    }
    Ok(names)
}

/// Adds a text at the end of names that are all texts.
fn push_text(alloc: Global, names: &mut List<Name>, text: &str) -> Result<(), NoMemory>
    ensures { OnOk result (names.new ≡ names.old ++ text.now ∷ []) }
{
    let name = Name::from_bytes(alloc, text.as_bytes())?;
    names.push(name)?;
    Ok(())
}

fn no_names(alloc: Global) -> List<Name>
    ensures { result ≡ [] }
{
    List::new(alloc)
}
