//! The objects that the files of all asks of a load list name.
//!
//! Linux Standard Base, Symbol Versioning. The file of an ask is said in `specs/VersionCheck.antt`
//! of `load_model`.

ghost use Rattle.std.specs.Prelude.{◌≡◌, ◌<◌, ℕ, List, [], IfOk, OnOk, flat_map, length, map, slice_get, unwrap_or, vec_items, zip};
ghost use Rattle.load_model.specs.LoadList.{up_to};
ghost use Rattle.load_model.specs.Runs.{IsRunOver};
ghost use Rattle.load_model.specs.VersionCheck.{phase_at};
ghost use Rattle.version_files.specs.Files.{files_at, files_of_run};
ghost use Rattle.version_files.specs.Known.{all_known, first_known_by, known_from, needs_known, opens_known, sonames_known};
ghost use Rattle.version_files.specs.Telling.{AddsNames, AreNamed, told};

use crate::known::{Known, KnownNames};
use load_model::{Face, Name, NoMemory, Run};
use std::alloc::Global;

/// For each object, and for each of its asks, the number of the object that its file names, if any.
#[tactic(auto, unfolding(crate::specs::Files::files_of_run))]
pub fn files_of_run(
    alloc: Global,
    faces: &[Face],
    run: &Run,
) -> Result<Vec<Vec<Option<u32>>>, NoMemory>
    requires { IsRunOver faces.now run.now }
    ensures { IfOk result (λ files. map vec_items files.items ≡ files_of_run faces.now run.now) }
{
    let known = known_names(alloc, faces, run)?;
    let mut files = Vec::new(alloc);
    for number in 0..run.objs.as_slice().len() as u32 {
        let named = files_at(alloc, faces, run, &known, number)?;
        match files.push(named) {
            Ok(()) => {}
            Err(_) => return Err(NoMemory),
        }
    }
    Ok(files)
}

/// The same of one object.
fn files_at(
    alloc: Global,
    faces: &[Face],
    run: &Run,
    known: &KnownNames<'_>,
    number: u32,
) -> Result<Vec<Option<u32>>, NoMemory>
    requires run { IsRunOver faces.now run.now }
    requires named { AreNamed known.now }
    requires told { (phase : ℕ) (name : List ℕ) → told known.now phase name
        ≡ first_known_by phase name (all_known faces.now run.now) }
    requires number { number < length run.now.objs }
    ensures { IfOk result (λ files. files.items ≡ files_at faces.now run.now number) }
{
    let phase = phase_at(run, number);
    let mut files = Vec::new(alloc);
    for ask in run.face_of(faces, number).asks.as_slice() {
        match files.push(known.at(phase, &ask.file)) {
            Ok(()) => {}
            Err(_) => return Err(NoMemory),
        }
    }
    Ok(files)
}

/// The phase that brought an object.
fn phase_at(run: &Run, number: u32) -> u32
    ensures { result ≡ phase_at run.now number }
{
    match run.objs.as_slice().get(number as usize) {
        Some(obj) => obj.phase,
        None => 0,
    }
}

/// All names by which the objects of a run are known.
#[tactic(auto, unfolding(crate::specs::Known::all_known))]
fn known_names<'a>(
    alloc: Global,
    faces: &'a [Face],
    run: &'a Run,
) -> Result<KnownNames<'a>, NoMemory>
    requires { IsRunOver faces.now run.now }
    ensures named { IfOk result (λ known. AreNamed known) }
    ensures told { IfOk result (λ known. (phase : ℕ) (name : List ℕ) → told known phase name
        ≡ first_known_by phase name (all_known faces.now run.now)) }
{
    let mut known = KnownNames::new(alloc);
    add_sonames(alloc, &mut known, faces, run)?;
    add_needs(alloc, &mut known, faces, run)?;
    add_opens(alloc, &mut known, run)?;
    Ok(known)
}

/// Adds the sonames of all objects.
fn add_sonames<'a>(
    alloc: Global,
    known: &mut KnownNames<'a>,
    faces: &'a [Face],
    run: &'a Run,
) -> Result<(), NoMemory>
    requires run { IsRunOver faces.now run.now }
    requires named { AreNamed known.old }
    ensures named { OnOk result (AreNamed known.new) }
    ensures added { OnOk result (AddsNames known.old known.new
        (flat_map (sonames_known faces.now run.now) (up_to (length run.now.objs)))) }
{
    for number in 0..run.objs.as_slice().len() as u32 {
        add_soname(alloc, known, faces, run, number)?;
    }
    Ok(())
}

/// Adds the soname of an object, where it has one.
fn add_soname<'a>(
    alloc: Global,
    known: &mut KnownNames<'a>,
    faces: &'a [Face],
    run: &'a Run,
    number: u32,
) -> Result<(), NoMemory>
    requires run { IsRunOver faces.now run.now }
    requires named { AreNamed known.old }
    requires number { number < length run.now.objs }
    ensures named { OnOk result (AreNamed known.new) }
    ensures added { OnOk result (AddsNames known.old known.new
        (sonames_known faces.now run.now number)) }
{
    match &run.face_of(faces, number).soname {
        Some(name) => {
            let since = phase_at(run, number);
            let target = number;
            known.add(
                alloc,
                Known {
                    name,
                    target,
                    since,
                },
            )
        }
        None => Ok(()),
    }
}

/// Adds the needs of all objects.
fn add_needs<'a>(
    alloc: Global,
    known: &mut KnownNames<'a>,
    faces: &'a [Face],
    run: &'a Run,
) -> Result<(), NoMemory>
    requires run { IsRunOver faces.now run.now }
    requires named { AreNamed known.old }
    ensures named { OnOk result (AreNamed known.new) }
    ensures added { OnOk result (AddsNames known.old known.new
        (flat_map (needs_known faces.now run.now) (up_to (length run.now.objs)))) }
{
    for number in 0..run.objs.as_slice().len() as u32 {
        let needs = run.face_of(faces, number).needs.as_slice();
        let targets = targets_of(run, number);
        let phase = phase_at(run, number);
        add_requests(
            alloc,
            known,
            run,
            Asked {
                needs,
                targets,
                phase,
            },
        )?;
    }
    Ok(())
}

/// Where the needs of an object went.
fn targets_of(run: &Run, number: u32) -> &[u32]
    ensures { result.now ≡ unwrap_or (slice_get run.now.targets number) [] }
{
    match run.targets.as_slice().get(number as usize) {
        Some(targets) => targets.as_slice(),
        None => &[],
    }
}

/// The names that an object asks for, where they went, and the phase that brought it.
#[derive(Clone, Copy)]
pub struct Asked<'a> {
    pub needs: &'a [Name],
    pub targets: &'a [u32],
    pub phase: u32,
}

/// Adds requests of one phase.
fn add_requests<'a>(
    alloc: Global,
    known: &mut KnownNames<'a>,
    run: &'a Run,
    asked: Asked<'a>,
) -> Result<(), NoMemory>
    requires named { AreNamed known.old }
    ensures named { OnOk result (AreNamed known.new) }
    ensures added { OnOk result (AddsNames known.old known.new
        (map (known_from run.now asked.entry.phase)
        (zip asked.entry.needs.now asked.entry.targets.now))) }
{
    for (place, name) in asked.needs.iter().enumerate() {
        let target = match asked.targets.get(place) {
            Some(target) => *target,
            None => return Ok(()),
        };
        let since = asked.phase.max(phase_at(run, target));
        known.add(
            alloc,
            Known {
                name,
                target,
                since,
            },
        )?;
    }
    Ok(())
}

/// Adds the opened names: each is asked for in a phase of its own, from 1 on.
fn add_opens<'a>(alloc: Global, known: &mut KnownNames<'a>, run: &'a Run) -> Result<(), NoMemory>
    requires named { AreNamed known.old }
    ensures named { OnOk result (AreNamed known.new) }
    ensures added { OnOk result (AddsNames known.old known.new (opens_known run.now)) }
{
    for (place, name) in run.opens.as_slice().iter().enumerate() {
        let target = match run.roots.as_slice().get(place) {
            Some(target) => *target,
            None => return Ok(()),
        };
        if place as u64 + 1 >= 1 << 32 {
            return Err(NoMemory);
        }
        let since = (place as u32 + 1).max(phase_at(run, target));
        known.add(
            alloc,
            Known {
                name,
                target,
                since,
            },
        )?;
    }
    Ok(())
}
