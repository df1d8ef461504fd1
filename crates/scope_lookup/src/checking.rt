//! Whether the versions that objects ask for are there.
//!
//! Linux Standard Base, Symbol Versioning. Asks are said in `specs/VersionCheck.antt` of
//! `load_model`, the answer in `specs/Asking.antt`.

ghost use Rattle.std.specs.Prelude.{◌≡◌, ◌<◌, OnErr, OnOk, length};
ghost use Rattle.std.specs.List.{list_any};
ghost use Rattle.std.specs.Str.{bytes_eq};
ghost use Rattle.answers.specs.Answers.{TellsBy};
ghost use Rattle.answers.specs.First.{first_some};
ghost use Rattle.load_model.specs.Opening.{AreFew};
ghost use Rattle.load_model.specs.Runs.{IsRunOver};
ghost use Rattle.load_model.specs.VersionCheck.{VersionsMet, first_unmet, has_defined, unmet_of};
ghost use Rattle.scope_lookup.specs.Asking.{asked_names, unmet_ask};

use crate::files::version_file;
use crate::stops::VersionStop;
use load_model::{Face, List, Name, Run};

/// Whether the versions that the objects of a run ask for are there: else the first ask, by object
/// and place, that is not met.
///
/// `asked` has the needs of each object, for the program followed by the opened names. Takes no
/// memory.
pub fn check_versions(
    faces: &[Face],
    run: &Run,
    asked: &List<List<Name>>,
) -> Result<(), VersionStop>
    requires run { IsRunOver faces.now run.now }
    requires few { AreFew faces.now }
    requires asked { asked.now ≡ asked_names faces.now run.now }
    ensures answer { TellsBy unmet_ask result (first_unmet faces.now run.now) }
    ensures met { OnOk result (VersionsMet faces.now run.now) }
    ensures unmet { OnErr result (¬ VersionsMet faces.now run.now) }
{
    for obj in 0..run.objs.as_slice().len() as u32 {
        if let Err(stop) = check_object(faces, run, asked, obj) {
            return Err(stop);
        }
    }
    Ok(())
}

/// Whether the asks of an object are met.
fn check_object(
    faces: &[Face],
    run: &Run,
    asked: &List<List<Name>>,
    obj: u32,
) -> Result<(), VersionStop>
    requires run { IsRunOver faces.now run.now }
    requires few { AreFew faces.now }
    requires asked { asked.now ≡ asked_names faces.now run.now }
    requires obj { obj < length run.now.objs }
    ensures { TellsBy unmet_ask result (first_some (unmet_of faces.now run.now obj)) }
{
    let face = run.face_of(faces, obj);
    for (place, ask) in face.asks.as_slice().iter().enumerate() {
        if ask.weak {
            continue;
        }
        let place = place as u32;
        match version_file(faces, run, asked, obj, &ask.file) {
            Some(file) => {
                if !has_defined(run.face_of(faces, file).defs.as_slice(), &ask.name) {
                    return Err(VersionStop::UnsatisfiedVersion { obj, ask: place });
                }
            }
            None => return Err(VersionStop::VersionFileUnloaded { obj, ask: place }),
        }
    }
    Ok(())
}

/// Whether a file with these version definitions has a version: it has none, or defines it.
fn has_defined(defs: &[Name], version: &Name) -> bool
    ensures { result ≡ has_defined version.now defs.now }
{
    defs.is_empty() || has_name(defs, version)
}

/// Whether a name is one of these.
fn has_name(names: &[Name], name: &Name) -> bool
    ensures { result ≡ list_any (λ other. bytes_eq other name.now) names.now }
{
    names
        .iter()
        .any(|other| other.as_bytes() == name.as_bytes())
}
