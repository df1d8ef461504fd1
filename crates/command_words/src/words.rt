//! The command that words have the shape of. An empty word, one that begins with `-`, and a first
//! word that is no command are refused by hand; `clap` reads the words behind the verb. Definitions:
//! `specs/Words.antt`, `specs/Forms.antt`.

ghost use Rattle.std.specs.Prelude.{◌≡◌, ◌∷◌, IfOk, drop, false, string_bytes};
ghost use Rattle.std.specs.List.{list_any};
ghost use Rattle.clap.specs.Words.{found_of, rows_of};
ghost use Rattle.command_words.specs.Forms.{build_told, gen_told, host_told, quick_told, show_told};
ghost use Rattle.command_words.specs.Words.{build_asked, build_of, command_of, gen_asked, gen_of, host_asked, host_of, host_with, is_unshaped, quick_asked, quick_of, quick_with, shape_of, show_asked, show_of, show_with, texts};

use crate::commands::{Build, Command, Gen, Host, Quick, Show};
use crate::forms::{build_words, gen_words, path_words, quick_words};
use crate::values::{are_file_names, count_in, given_dirs, names_in, path_in, paths_in};
use clap::ArgMatches;
use load_model::{List, Name};
use path_text::{Abs, NoMemory};
use std::alloc::Global;

/// The command that the words have the shape of, or none.
pub fn read_words(alloc: Global, words: &[String]) -> Result<Option<Command>, NoMemory>
    ensures { IfOk result (λ command. command ≡ command_of (texts words.now)) }
{
    if any_unshaped(words) {
        return Ok(None);
    }
    match words.first() {
        Some(verb) => read_shape(alloc, verb.as_bytes(), words),
        None => Ok(None),
    }
}

/// Whether a word has no place in any shape: an empty one, or one that begins with `-`.
fn any_unshaped(words: &[String]) -> bool
    ensures { result ≡ list_any is_unshaped (texts words.now) }
{
    some_unshaped(words)
}

fn some_unshaped(words: &[String]) -> bool
    ensures { result ≡ list_any (λ w. is_unshaped (string_bytes w)) words.now }
{
    words.iter().any(|word| is_unshaped_word(word.as_bytes()))
}

fn is_unshaped_word(word: &[u8]) -> bool
    ensures { result ≡ is_unshaped word.now }
{
    match word.first() {
        None => true,
        Some(first) => *first == b'-',
    }
}

/// The command of words of which none is unshaped, by the verb that comes first.
fn read_shape(alloc: Global, verb: &[u8], words: &[String]) -> Result<Option<Command>, NoMemory>
    requires { list_any is_unshaped (texts words.now) ≡ false }
    ensures { IfOk result
        (λ command. command ≡ shape_of (verb.now ∷ drop 1 (texts words.now))) }
{
    if verb == b"quick".as_slice() {
        return ask_quick(alloc, words);
    }
    if verb == b"build".as_slice() {
        return ask_build(alloc, words);
    }
    if verb == b"show".as_slice() {
        return ask_show(alloc, words);
    }
    if verb == b"host".as_slice() {
        return ask_host(alloc, words);
    }
    if verb == b"gen".as_slice() {
        return ask_gen(alloc, words);
    }
    Ok(None)
}

fn ask_quick(alloc: Global, words: &[String]) -> Result<Option<Command>, NoMemory>
    requires { list_any is_unshaped (texts words.now) ≡ false }
    ensures { IfOk result (λ command. command ≡ quick_asked (drop 1 (texts words.now))) }
{
    match read_quick(alloc, words)? {
        Some(quick) => Ok(Some(Command::Quick(quick))),
        None => Ok(None),
    }
}

fn ask_build(alloc: Global, words: &[String]) -> Result<Option<Command>, NoMemory>
    requires { list_any is_unshaped (texts words.now) ≡ false }
    ensures { IfOk result (λ command. command ≡ build_asked (drop 1 (texts words.now))) }
{
    match read_build(alloc, words)? {
        Some(build) => Ok(Some(Command::Build(build))),
        None => Ok(None),
    }
}

fn ask_show(alloc: Global, words: &[String]) -> Result<Option<Command>, NoMemory>
    requires { list_any is_unshaped (texts words.now) ≡ false }
    ensures { IfOk result (λ command. command ≡ show_asked (drop 1 (texts words.now))) }
{
    match read_show(alloc, words)? {
        Some(show) => Ok(Some(Command::Show(show))),
        None => Ok(None),
    }
}

fn ask_host(alloc: Global, words: &[String]) -> Result<Option<Command>, NoMemory>
    requires { list_any is_unshaped (texts words.now) ≡ false }
    ensures { IfOk result (λ command. command ≡ host_asked (drop 1 (texts words.now))) }
{
    match read_host(alloc, words)? {
        Some(host) => Ok(Some(Command::Host(host))),
        None => Ok(None),
    }
}

fn ask_gen(alloc: Global, words: &[String]) -> Result<Option<Command>, NoMemory>
    requires { list_any is_unshaped (texts words.now) ≡ false }
    ensures { IfOk result (λ command. command ≡ gen_asked (drop 1 (texts words.now))) }
{
    match read_gen(alloc, words)? {
        Some(asked) => Ok(Some(Command::Gen(asked))),
        None => Ok(None),
    }
}

#[tactic(auto, using(crate::proofs::ToldLemmas::quick_asks))]
fn read_quick(alloc: Global, words: &[String]) -> Result<Option<Quick>, NoMemory>
    requires { list_any is_unshaped (texts words.now) ≡ false }
    ensures { IfOk result (λ command. command ≡ quick_of (drop 1 (texts words.now))) }
{
    match quick_words(alloc, words)? {
        Some(found) => told_quick(alloc, &found),
        None => Ok(None),
    }
}

fn told_quick(alloc: Global, found: &ArgMatches<'_>) -> Result<Option<Quick>, NoMemory>
    ensures { IfOk result (λ command. command ≡ quick_told (rows_of (found_of found.now))) }
{
    let program = path_in(alloc, found, "program")?;
    let out = path_in(alloc, found, "out")?;
    let names = names_in(alloc, found, "names")?;
    Ok(pack_words(program, out, names))
}

fn pack_words(program: Option<Abs>, out: Option<Abs>, names: List<Name>) -> Option<Quick>
    ensures { result ≡ quick_with program out names }
{
    let (Some(program), Some(out)) = (program, out) else {
        return None;
    };
    if !are_file_names(names.as_slice()) {
        return None;
    }
    Some(Quick {
        program,
        out,
        names,
    })
}

#[tactic(auto, using(crate::proofs::ToldLemmas::build_asks))]
fn read_build(alloc: Global, words: &[String]) -> Result<Option<Build>, NoMemory>
    requires { list_any is_unshaped (texts words.now) ≡ false }
    ensures { IfOk result (λ command. command ≡ build_of (drop 1 (texts words.now))) }
{
    match build_words(alloc, words)? {
        Some(found) => told_build(alloc, &found),
        None => Ok(None),
    }
}

fn told_build(alloc: Global, found: &ArgMatches<'_>) -> Result<Option<Build>, NoMemory>
    ensures { IfOk result (λ command. command ≡ build_told (rows_of (found_of found.now))) }
{
    let config = path_in(alloc, found, "config")?;
    let out = path_in(alloc, found, "out")?;
    let (Some(config), Some(out)) = (config, out) else {
        return Ok(None);
    };
    Ok(Some(Build { config, out }))
}

#[tactic(auto, using(crate::proofs::ToldLemmas::show_asks))]
fn read_show(alloc: Global, words: &[String]) -> Result<Option<Show>, NoMemory>
    requires { list_any is_unshaped (texts words.now) ≡ false }
    ensures { IfOk result (λ command. command ≡ show_of (drop 1 (texts words.now))) }
{
    match path_words(alloc, "show", words)? {
        Some(found) => told_show(alloc, &found),
        None => Ok(None),
    }
}

fn told_show(alloc: Global, found: &ArgMatches<'_>) -> Result<Option<Show>, NoMemory>
    ensures { IfOk result (λ command. command ≡ show_told (rows_of (found_of found.now))) }
{
    let program = path_in(alloc, found, "path")?;
    let dirs = paths_in(alloc, found, "dirs")?;
    show_words(alloc, program, dirs)
}

fn show_words(
    alloc: Global,
    program: Option<Abs>,
    dirs: Option<List<Abs>>,
) -> Result<Option<Show>, NoMemory>
    ensures { IfOk result (λ command. command ≡ show_with program dirs) }
{
    let (Some(program), Some(dirs)) = (program, dirs) else {
        return Ok(None);
    };
    let dirs = given_dirs(alloc, dirs)?;
    Ok(Some(Show { program, dirs }))
}

#[tactic(auto, using(crate::proofs::ToldLemmas::host_asks))]
fn read_host(alloc: Global, words: &[String]) -> Result<Option<Host>, NoMemory>
    requires { list_any is_unshaped (texts words.now) ≡ false }
    ensures { IfOk result (λ command. command ≡ host_of (drop 1 (texts words.now))) }
{
    match path_words(alloc, "host", words)? {
        Some(found) => told_host(alloc, &found),
        None => Ok(None),
    }
}

fn told_host(alloc: Global, found: &ArgMatches<'_>) -> Result<Option<Host>, NoMemory>
    ensures { IfOk result (λ command. command ≡ host_told (rows_of (found_of found.now))) }
{
    let place = path_in(alloc, found, "path")?;
    let dirs = paths_in(alloc, found, "dirs")?;
    host_words(alloc, place, dirs)
}

fn host_words(
    alloc: Global,
    place: Option<Abs>,
    dirs: Option<List<Abs>>,
) -> Result<Option<Host>, NoMemory>
    ensures { IfOk result (λ command. command ≡ host_with place dirs) }
{
    let (Some(place), Some(dirs)) = (place, dirs) else {
        return Ok(None);
    };
    let dirs = given_dirs(alloc, dirs)?;
    Ok(Some(Host { place, dirs }))
}

#[tactic(auto, using(crate::proofs::ToldLemmas::gen_asks))]
fn read_gen(alloc: Global, words: &[String]) -> Result<Option<Gen>, NoMemory>
    requires { list_any is_unshaped (texts words.now) ≡ false }
    ensures { IfOk result (λ command. command ≡ gen_of (drop 1 (texts words.now))) }
{
    match gen_words(alloc, words)? {
        Some(found) => told_gen(alloc, &found),
        None => Ok(None),
    }
}

fn told_gen(alloc: Global, found: &ArgMatches<'_>) -> Result<Option<Gen>, NoMemory>
    ensures { IfOk result (λ command. command ≡ gen_told (rows_of (found_of found.now))) }
{
    match count_in(alloc, found, "count")? {
        Some(count) => Ok(Some(Gen { count })),
        None => Ok(None),
    }
}
