//! `gen`: makes a tree in memory, packs its program into a folder in memory, and says what that
//! counts. Definition: `specs/Generating.antt`.

ghost use Rattle.std.specs.Prelude.{◌≡◌, All, IfOk, Ok, Option};
ghost use Rattle.appdir_files.specs.Writing.{IsProbed};
ghost use Rattle.build_plan.specs.Steps.{IsStepAnswer};
ghost use Rattle.deliveries.specs.Delivery.{IsAnswerProbed};
ghost use Rattle.elf_make.specs.Generator.{IsTreeSize, made_tree};
ghost use Rattle.path_text.specs.Path.{path_of};
ghost use Rattle.load_model.specs.World.{World};
ghost use Rattle.appdir_cli.specs.Answering.{IsAnswerIn};
ghost use Rattle.appdir_cli.specs.Generating.{Generates, counts_in, gen_config, gen_line, objects_text, references_text};

use app_config::{Config, quick_config, setting_of};
use appdir_build::{BuildStop, Built, build};
use command_words::Gen;
use deliveries::{Answer, Status, Whole, give};
use elf_make::make_tree;
use load_model::{List, Text};
use path_text::{Abs, NoMemory};
use ports::{MemOut, MemSink, Tree};
use std::alloc::Global;

/// What is counted of a directory that is built.
#[derive(Clone, Copy)]
pub struct Counts {
    objects: u32,
    bundled: u32,
    hosts: u32,
    references: u32,
    bound: u32,
    files: usize,
}

/// `gen N`: says what packing the program of a tree of N libraries counts.
pub fn generate(alloc: Global, command: &Gen) -> Result<Answer, BuildStop>
    requires { IsTreeSize command.now.count }
    ensures answer { IsAnswerIn
        (Generates (made_tree command.now.count) command.now.count) result }
    ensures probed { (told : Option World) → IfOk result (IsAnswerProbed told) }
{
    let mut tree = match make_tree(alloc, command.count) {
        Ok(tree) => tree,
        Err(_) => return Err(BuildStop::NoMemory),
    };
    match generate_in(alloc, &mut tree, command.count) {
        Ok(answer) => Ok(answer),
        Err(BuildStop::Refused(refusal)) => Err(BuildStop::Refused(refusal)),
        // a tree in memory fails no call that is not to fail
        Err(BuildStop::Read | BuildStop::NoMemory) => Err(BuildStop::NoMemory),
    }
}

/// Packs the program of a tree, and says what that counts.
fn generate_in<T: Tree>(alloc: Global, tree: &mut T, count: u32) -> Result<Answer, BuildStop>
    ensures answer { IsStepAnswer (T.seen tree.old) (T.seen tree.new)
        (λ world outcome. Generates world count outcome) result }
    ensures probed { (told : Option World) → IfOk result (IsAnswerProbed told) }
{
    let config = match gen_config(alloc) {
        Ok(config) => config,
        Err(_) => return Err(BuildStop::NoMemory),
    };
    match build(alloc, &config, tree) {
        Ok(built) => match written_line(alloc, tree, count, built) {
            Ok(line) => Ok(Answer::Says(line)),
            Err(_) => Err(BuildStop::NoMemory),
        },
        Err(stop) => Err(stop),
    }
}

/// The program with the default names and one directory.
fn gen_config(alloc: Global) -> Result<Config, NoMemory>
    ensures { IfOk result (λ config. config ≡ gen_config) }
{
    let program = plain_path(alloc, b"/gen/bin/app")?;
    let mut dirs = List::new(alloc);
    dirs.push(plain_path(alloc, b"/lib64")?)?;
    let mut config = quick_config(alloc, &program, &[])?;
    config.setting = setting_of(dirs);
    Ok(config)
}

/// A path that is in normal form.
fn plain_path(alloc: Global, text: &[u8]) -> Result<Abs, NoMemory>
    requires { path_of text.now ≡ Ok text.now }
    ensures { IfOk result (λ path. path ≡ text.now) }
{
    match Abs::read(alloc, text) {
        Ok(path) => Ok(path),
        Err(_) => Err(NoMemory),
    }
}

/// Writes what is built into a folder in memory, and gives the line of what it counts.
fn written_line<T: Tree>(
    alloc: Global,
    tree: &mut T,
    count: u32,
    built: Built,
) -> Result<Text, NoMemory>
    requires { All (IsProbed (T.seen tree.old).told) built.items }
    ensures { IfOk result (λ line. line ≡ gen_line count (counts_in built)) }
{
    let line = gen_text(alloc, count, counts_in(&built))?;
    let place = plain_path(alloc, b"/gen/out")?;
    delivered_line(
        alloc,
        tree,
        Whole {
            place,
            items: built.items,
            line,
        },
    )
}

/// What is counted of a directory.
fn counts_in(built: &Built) -> Counts
    ensures { result ≡ counts_in built.now }
{
    Counts {
        objects: built.objects,
        bundled: built.bundled,
        hosts: built.hosts,
        references: built.references,
        bound: built.bound,
        files: built.items.as_slice().len(),
    }
}

/// The line for so many libraries, with these counts.
fn gen_text(alloc: Global, count: u32, counts: Counts) -> Result<Text, NoMemory>
    ensures { IfOk result (λ line. line ≡ gen_line count counts) }
{
    let objects = objects_text(alloc, count, counts)?;
    let references = references_text(alloc, counts)?;
    let mut line = Vec::from_slice(alloc, objects.as_bytes())?;
    line.extend_from_slice(references.as_bytes())?;
    Ok(Text::from_vec(line))
}

/// Its front part, as far as the libraries.
fn objects_text(alloc: Global, count: u32, counts: Counts) -> Result<Text, NoMemory>
    ensures { IfOk result (λ text. text ≡ objects_text count counts) }
{
    let Counts {
        objects,
        bundled,
        hosts,
        ..
    } = counts;
    let text = format!(in alloc;
        "gen {count}: {objects} objects, {bundled} bundled, {hosts} host libraries, "
    )?;
    Text::from_bytes(alloc, text.as_bytes())
}

/// Its back part, from the references on.
fn references_text(alloc: Global, counts: Counts) -> Result<Text, NoMemory>
    ensures { IfOk result (λ text. text ≡ references_text counts) }
{
    let Counts {
        references,
        bound,
        files,
        ..
    } = counts;
    let text = format!(in alloc; "{references} references, {bound} bound, {files} files\n")?;
    Text::from_bytes(alloc, text.as_bytes())
}

/// Delivers files into a folder in memory, and gives their line, as a sink in memory takes it.
fn delivered_line<T: Tree>(alloc: Global, tree: &mut T, whole: Whole) -> Result<Text, NoMemory>
    requires { All (IsProbed (T.seen tree.old).told) whole.items }
    ensures { IfOk result (λ line. line ≡ whole.line) }
{
    let mut out = MemOut::new(alloc)?;
    let mut sink = MemSink::new(alloc)?;
    match give(alloc, &Answer::Packs(whole), tree, &mut out, &mut sink) {
        Status::Done => Text::from_bytes(alloc, sink.bytes()),
        // a folder and a sink in memory fail for want of memory alone
        _ => Err(NoMemory),
    }
}
