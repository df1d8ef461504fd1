//! The forms of the words behind a verb, as `clap` reads them. A form takes the verb as the name of
//! its program. Definitions: `specs/Forms.antt`.

ghost use Rattle.std.specs.Prelude.{◌≡◌, IfOk, drop, false, option_map, true};
ghost use Rattle.std.specs.List.{list_any};
ghost use Rattle.clap.specs.Words.{app_of, found_of, is_simple, is_simple_and_free, rows_of};
ghost use Rattle.command_words.specs.Forms.{Fits, build_app, build_found, gen_app, gen_found, path_app, path_found, quick_app, quick_found};
ghost use Rattle.command_words.specs.Words.{is_unshaped, texts};

use clap::error::ErrorKind;
use clap::{Arg, ArgAction, ArgMatches, Command};
use path_text::NoMemory;
use std::alloc::{AllocError, Global};

/// What the words of `quick PROGRAM OUT [NAME ..]` are, or none where they have another form.
#[tactic(auto, using(crate::proofs::ToldLemmas::quick_words))]
pub fn quick_words<'a>(
    alloc: Global,
    words: &'a [String],
) -> Result<Option<ArgMatches<'a>>, NoMemory>
    requires { list_any is_unshaped (texts words.now) ≡ false }
    ensures { IfOk result (λ found. option_map (λ m. rows_of (found_of m)) found
        ≡ quick_found (drop 1 (texts words.now))) }
{
    let form = quick_form(alloc)?;
    fit(form, words)
}

/// Those of `build CONFIG OUT`.
#[tactic(auto, using(crate::proofs::ToldLemmas::build_words))]
pub fn build_words<'a>(
    alloc: Global,
    words: &'a [String],
) -> Result<Option<ArgMatches<'a>>, NoMemory>
    requires { list_any is_unshaped (texts words.now) ≡ false }
    ensures { IfOk result (λ found. option_map (λ m. rows_of (found_of m)) found
        ≡ build_found (drop 1 (texts words.now))) }
{
    let form = build_form(alloc)?;
    fit(form, words)
}

/// Those of `show PROGRAM [DIR ..]` and `host OUT [DIR ..]`.
#[tactic(auto, using(crate::proofs::ToldLemmas::path_words))]
pub fn path_words<'a>(
    alloc: Global,
    verb: &'a str,
    words: &'a [String],
) -> Result<Option<ArgMatches<'a>>, NoMemory>
    requires { list_any is_unshaped (texts words.now) ≡ false }
    ensures { IfOk result (λ found. option_map (λ m. rows_of (found_of m)) found
        ≡ path_found (drop 1 (texts words.now))) }
{
    let form = path_form(alloc, verb)?;
    fit(form, words)
}

/// Those of `gen N`.
#[tactic(auto, using(crate::proofs::ToldLemmas::gen_words))]
pub fn gen_words<'a>(alloc: Global, words: &'a [String]) -> Result<Option<ArgMatches<'a>>, NoMemory>
    requires { list_any is_unshaped (texts words.now) ≡ false }
    ensures { IfOk result (λ found. option_map (λ m. rows_of (found_of m)) found
        ≡ gen_found (drop 1 (texts words.now))) }
{
    let form = gen_form(alloc)?;
    fit(form, words)
}

fn quick_form<'a>(alloc: Global) -> Result<Command<'a>, AllocError>
    ensures { IfOk result (λ form. app_of form ≡ quick_app) }
{
    let program = Arg::new(alloc, "program").required(true);
    let out = Arg::new(alloc, "out").required(true);
    let names = Arg::new(alloc, "names").action(ArgAction::Append);
    Command::new(alloc, "quick")
        .arg(program)?
        .arg(out)?
        .arg(names)
}

fn build_form<'a>(alloc: Global) -> Result<Command<'a>, AllocError>
    ensures { IfOk result (λ form. app_of form ≡ build_app) }
{
    let config = Arg::new(alloc, "config").required(true);
    let out = Arg::new(alloc, "out").required(true);
    Command::new(alloc, "build").arg(config)?.arg(out)
}

fn path_form<'a>(alloc: Global, verb: &'a str) -> Result<Command<'a>, AllocError>
    ensures { IfOk result (λ form. app_of form ≡ path_app verb.now) }
{
    let path = Arg::new(alloc, "path").required(true);
    let dirs = Arg::new(alloc, "dirs").action(ArgAction::Append);
    Command::new(alloc, verb).arg(path)?.arg(dirs)
}

fn gen_form<'a>(alloc: Global) -> Result<Command<'a>, AllocError>
    ensures { IfOk result (λ form. app_of form ≡ gen_app) }
{
    let count = Arg::new(alloc, "count").required(true);
    Command::new(alloc, "gen").arg(count)
}

/// What the words are by a form, where they fit it.
fn fit<'a>(form: Command<'a>, words: &'a [String]) -> Result<Option<ArgMatches<'a>>, NoMemory>
    requires simple { is_simple (app_of form) ≡ true }
    requires free { is_simple_and_free (app_of form) ≡ true }
    ensures { IfOk result (λ found. Fits (app_of form.entry) (texts words.now)
        (option_map (λ m. rows_of (found_of m)) found)) }
{
    match form.try_get_matches_from(words) {
        Ok(found) => Ok(Some(found)),
        Err(error) => match error.kind() {
            ErrorKind::OutOfMemory => Err(NoMemory),
            _ => Ok(None),
        },
    }
}
