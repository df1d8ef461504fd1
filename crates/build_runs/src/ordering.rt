//! The faces of the objects of runs put in the order of runs and objects.
//!
//! What stays is said in `specs/Ordering.antt`.

ghost use Rattle.std.specs.Prelude.{◌≡◌, ◌+◌, ◌++◌, All, IfOk, OnOk, length};
ghost use Rattle.build_runs.specs.BuildRuns.{face_places, places_in};
ghost use Rattle.build_runs.specs.Ordering.{ArePutInOrder, numbered, numbered_objs as objs_from, with_face, with_numbered_objs};
ghost use Rattle.load_model.specs.Opening.{AreFew};
ghost use Rattle.tree_opener.specs.Names.{IsFaceFor};

use crate::loading::LoadedRuns;
use load_model::{List, Obj, Run};
use path_text::NoMemory;
use std::alloc::Global;
use tree_opener::TreeOpener;

/// Keeps the faces of the objects alone, in the order of runs and objects. Runs whose objects do
/// not have faces in the order in which these were read are told as want of memory.
pub fn put_in_order(
    alloc: Global,
    opener: TreeOpener,
    runs: Vec<Run>,
) -> Result<LoadedRuns, NoMemory>
    ensures machine { IfOk result (λ loaded. loaded.table.machine ≡ opener.machine) }
    ensures order { IfOk result (λ loaded.
        ArePutInOrder opener.faces runs.items loaded.table.faces loaded.runs) }
    ensures few { IfOk result (λ loaded. AreFew loaded.table.faces) }
    ensures known { IfOk result
        (λ loaded. All (IsFaceFor loaded.table.machine) loaded.table.faces) }
{
    let places = places_of(alloc, runs.as_slice())?;
    let table = opener.select(alloc, places.as_slice())?;
    // what is known of its faces is what this call ensures
    let _faces = table.faces();
    let runs = numbered_runs(alloc, runs)?;
    Ok(LoadedRuns { table, runs })
}

/// The places of the faces of all objects.
fn places_of(alloc: Global, runs: &[Run]) -> Result<List<u32>, NoMemory>
    ensures { IfOk result (λ places. places ≡ face_places runs.now) }
{
    let mut places = List::new(alloc);
    for run in runs {
        add_places(run.objs.as_slice(), &mut places)?;
    }
    Ok(places)
}

/// Adds the places of the faces of these objects.
fn add_places(objs: &[Obj], places: &mut List<u32>) -> Result<(), NoMemory>
    ensures { OnOk result (places.new ≡ places.old ++ places_in objs.now) }
{
    for obj in objs {
        places.push(obj.face)?;
    }
    Ok(())
}

/// The runs with faces at the places 0, 1, 2 and so on, over all objects.
fn numbered_runs(alloc: Global, runs: Vec<Run>) -> Result<List<Run>, NoMemory>
    ensures { IfOk result (λ new. new ≡ numbered 0 runs.items) }
{
    let mut all = List::new(alloc);
    let mut place = 0;
    for run in runs {
        all.push(numbered_run(alloc, run, &mut place)?)?;
    }
    Ok(all)
}

/// The run with faces at the places from this one on.
fn numbered_run(alloc: Global, run: Run, place: &mut u32) -> Result<Run, NoMemory>
    ensures run { IfOk result (λ new. new ≡ with_numbered_objs place.old run) }
    ensures place { OnOk result (place.new ≡ place.old + length run.objs) }
{
    let Run {
        objs,
        targets,
        global,
        opens,
        roots,
        locals,
    } = run;
    let objs = numbered_objs(alloc, objs.as_slice(), place)?;
    Ok(Run {
        objs,
        targets,
        global,
        opens,
        roots,
        locals,
    })
}

/// The objects with faces at the places from this one on.
#[tactic(auto, unfolding(crate::specs::Ordering::numbered_objs))]
fn numbered_objs(alloc: Global, objs: &[Obj], place: &mut u32) -> Result<List<Obj>, NoMemory>
    ensures objs { IfOk result (λ new. new ≡ objs_from place.old objs.now) }
    ensures place { OnOk result (place.new ≡ place.old + length objs.now) }
{
    let mut all = List::new(alloc);
    for obj in objs {
        all.push(numbered_obj(alloc, obj, place)?)?;
    }
    Ok(all)
}

/// The object with its face at this place. Places past those that have numbers are want of memory.
fn numbered_obj(alloc: Global, obj: &Obj, place: &mut u32) -> Result<Obj, NoMemory>
    ensures obj { IfOk result (λ new. new ≡ with_face obj.now place.old) }
    ensures place { OnOk result (place.new ≡ place.old + 1) }
{
    let face = *place;
    let Some(next) = face.checked_add(1) else {
        return Err(NoMemory);
    };
    *place = next;
    Ok(Obj {
        path: obj.path.copy(alloc)?,
        id: obj.id.copy(alloc)?,
        face,
        loader: obj.loader,
        phase: obj.phase,
    })
}
