//! What keeps a build from being split at its programs.
//!
//! System V gABI, Program Interpreter. Each kind is said in `specs/Clashes.antt`.

ghost use Rattle.std.specs.Prelude.{◌≡◌, IfOk, Some};
ghost use Rattle.std.specs.Option.{option_map};
ghost use Rattle.lib_closure.specs.Clashes.{first_program, first_program_file, has_odd_interpreter, interpreter_unlisted, no_interpreter, program_itself, program_met, program_named, program_needed, program_opened};
ghost use Rattle.lib_closure.specs.OfBuild.{of_build};
ghost use Rattle.lib_closure.specs.Seen.{standing};
ghost use Rattle.listed_runs.specs.Fitting.{has_listed_interpreter};

use crate::build::Build;
use crate::seen::Seen;
use crate::stops::ClosureStop;
use load_model::NoMemory;
use path_text::{Abs, PathFault};
use std::alloc::Global;

/// The first program without an interpreter.
#[tactic(auto, unfolding(crate::specs::Clashes::no_interpreter))]
pub fn no_interpreter(alloc: Global, build: &Build<'_>) -> Result<Option<ClosureStop>, NoMemory>
    ensures { IfOk result (λ found. found ≡ of_build no_interpreter build.now) }
{
    for program in &build.programs {
        if program.face.interp.is_none() {
            let path = build.path_of(program).copy(alloc)?;
            return Ok(Some(ClosureStop::NoInterpreter(path)));
        }
    }
    Ok(None)
}

/// The first program whose interpreter is not on the host list.
#[tactic(auto, unfolding(crate::specs::Clashes::interpreter_unlisted))]
pub fn interpreter_unlisted(
    alloc: Global,
    build: &Build<'_>,
) -> Result<Option<ClosureStop>, NoMemory>
    ensures { IfOk result (λ found. found ≡ of_build interpreter_unlisted build.now) }
{
    for program in &build.programs {
        if has_odd_interpreter(alloc, build, program)? {
            let path = build.path_of(program).copy(alloc)?;
            return Ok(Some(ClosureStop::InterpreterUnlisted(path)));
        }
    }
    Ok(None)
}

/// Whether the interpreter of a program is not on the host list.
fn has_odd_interpreter(
    alloc: Global,
    build: &Build<'_>,
    program: &Seen<'_>,
) -> Result<bool, NoMemory>
    ensures { IfOk result (λ odd. odd
        ≡ of_build has_odd_interpreter build.now (standing program.now)) }
{
    match &program.face.interp {
        Some(text) => Ok(!has_listed_base(alloc, build, text.as_bytes())?),
        None => Ok(true),
    }
}

/// Whether the last part of an interpreter's path is on the host list.
fn has_listed_base(alloc: Global, build: &Build<'_>, text: &[u8]) -> Result<bool, NoMemory>
    ensures { IfOk result (λ listed. listed
        ≡ has_listed_interpreter build.now.names.now (Some text.now)) }
{
    match Abs::read(alloc, text) {
        Ok(path) => Ok(build.listed.contains(path.base())),
        Err(PathFault::NoMemory) => Err(NoMemory),
        Err(_) => Ok(false),
    }
}

/// The first program that is loaded as a library, or of which versions are asked.
#[tactic(auto, unfolding(crate::specs::Clashes::program_needed))]
pub fn program_needed(alloc: Global, build: &Build<'_>) -> Result<Option<ClosureStop>, NoMemory>
    ensures { IfOk result (λ found. found ≡ of_build program_needed build.now) }
{
    for seen in &build.all {
        if let Some(program) = program_met(build, seen) {
            let path = program.obj.path.copy(alloc)?;
            return Ok(Some(ClosureStop::ProgramNeeded(path)));
        }
    }
    Ok(None)
}

/// The first program that an object is, needs, opens, or asks versions of; an object that begins a
/// load list is its program.
#[tactic(auto, unfolding(crate::specs::Clashes::program_met))]
fn program_met<'a>(build: &Build<'a>, seen: &Seen<'a>) -> Option<Seen<'a>>
    ensures { option_map standing result ≡ of_build program_met build.now (standing seen.now) }
{
    if let Some(program) = program_itself(build, seen) {
        return Some(program);
    }
    if let Some(program) = first_program(build, seen, seen.targets()) {
        return Some(program);
    }
    if let Some(program) = program_opened(build, seen) {
        return Some(program);
    }
    first_program_file(build, seen)
}

/// The program that an object behind the first is.
fn program_itself<'a>(build: &Build<'a>, seen: &Seen<'a>) -> Option<Seen<'a>>
    ensures { option_map standing result
        ≡ of_build program_itself build.now (standing seen.now) }
{
    if seen.number == 0 {
        None
    } else {
        build.program_like(seen)
    }
}

/// The first program that the opened names of a program went to.
fn program_opened<'a>(build: &Build<'a>, seen: &Seen<'a>) -> Option<Seen<'a>>
    ensures { option_map standing result
        ≡ of_build program_opened build.now (standing seen.now) }
{
    if seen.number == 0 {
        first_program(build, seen, seen.list.run.roots.as_slice())
    } else {
        None
    }
}

/// The first program among the objects of these numbers.
#[tactic(auto, unfolding(crate::specs::Clashes::first_program))]
fn first_program<'a>(build: &Build<'a>, seen: &Seen<'a>, numbers: &[u32]) -> Option<Seen<'a>>
    ensures { option_map standing result
        ≡ of_build first_program build.now (standing seen.now) numbers.now }
{
    for number in numbers {
        if let Some(program) = build.program_beside(seen, *number) {
            return Some(program);
        }
    }
    None
}

/// The first program of which an object asks versions.
#[tactic(auto, unfolding(crate::specs::Clashes::first_program_file))]
fn first_program_file<'a>(build: &Build<'a>, seen: &Seen<'a>) -> Option<Seen<'a>>
    ensures { option_map standing result
        ≡ of_build first_program_file build.now (standing seen.now) }
{
    for file in seen.files() {
        if let Some(program) = program_named(build, seen, *file) {
            return Some(program);
        }
    }
    None
}

/// The program that a file of versions names.
fn program_named<'a>(build: &Build<'a>, seen: &Seen<'a>, file: Option<u32>) -> Option<Seen<'a>>
    ensures { option_map standing result
        ≡ of_build program_named build.now (standing seen.now) file }
{
    match file {
        Some(number) => build.program_beside(seen, number),
        None => None,
    }
}
