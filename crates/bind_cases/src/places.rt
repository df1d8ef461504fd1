//! The report of one program whose objects are written nowhere.

ghost use Rattle.std.specs.Prelude.{◌≡◌, ◌∷◌, [], All, IfOk, length, map};
ghost use Rattle.load_model.specs.Bindings.{IsBindOver};
ghost use Rattle.load_model.specs.Opening.{AreFew};
ghost use Rattle.load_model.specs.Runs.{IsRunOver};
ghost use Rattle.bind_report.specs.Places.{no_places};

use bind_report::report;
use load_model::{Face, List, Name, NoMemory, Obj, Replay, Text};
use std::alloc::Global;

/// The report of a program.
#[tactic(auto, using(crate::proofs::OneRunLemmas::one_run, crate::proofs::OneRunLemmas::one_binds, crate::proofs::OneRunLemmas::one_place))]
pub fn report_of(alloc: Global, faces: &[Face], replay: &Replay) -> Result<Text, NoMemory>
    requires run { IsRunOver faces.now replay.now.run }
    requires few { AreFew faces.now }
    requires binds { All (IsBindOver faces.now replay.now.run) replay.now.binds }
{
    let places = listed_places(alloc, replay.run.objs.as_slice())?;
    report(alloc, std::slice::from_ref(replay), faces, &places)
}

/// The places of the objects of the one program.
fn listed_places(alloc: Global, objs: &[Obj]) -> Result<List<List<Name>>, NoMemory>
    ensures { IfOk result (λ places. places ≡ no_places objs.now ∷ []) }
{
    let mut places = List::new(alloc);
    places.push(dashes(alloc, objs)?)?;
    Ok(places)
}

/// The place `-` for each object.
fn dashes(alloc: Global, objs: &[Obj]) -> Result<List<Name>, NoMemory>
    ensures { IfOk result (λ places. places ≡ no_places objs.now) }
{
    let mut places = List::new(alloc);
    for _obj in objs {
        places.push(Name::from_bytes(alloc, b"-")?)?;
    }
    Ok(places)
}
