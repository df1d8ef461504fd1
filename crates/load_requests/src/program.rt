//! The program, which is the first object.

ghost use Rattle.std.specs.Prelude.{◌≡◌, IfOk};
ghost use Rattle.load_model.specs.Opening.{OnlyGrew};
ghost use Rattle.load_model.specs.declared.setting.Setting.{Setting};
ghost use Rattle.load_requests.specs.Standing.{IsAlone, IsSafe, IsStarted};

use crate::loading::Loading;
use crate::stops::LoadStop;
use load_model::{Obj, Opened, Opener};
use path_text::Abs;
use search_paths::SearchStop;
use std::alloc::Global;

/// Opens the program, and begins a load list with it.
pub fn start<P: Opener>(alloc: Global, opener: &mut P, start: &Abs) -> Result<Loading, LoadStop>
    ensures safe { IfOk result (λ s. IsSafe (P.seen opener.new).faces s) }
    ensures alone { IfOk result (λ s. IsAlone s) }
    ensures answer { (setting : Setting) → setting.machine ≡ (P.seen opener.old).machine
        → IsStarted setting (P.seen opener.old) (P.seen opener.new) start.now result }
    ensures grew { OnlyGrew (P.seen opener.old) (P.seen opener.new) }
{
    let path = start.copy(alloc)?;
    match opener.open(alloc, start) {
        Ok(Opened::Object { id, face }) => {
            let mut loading = Loading::new(alloc);
            let program = Obj {
                path,
                id,
                face,
                loader: 0,
                phase: 0,
            };
            loading.push(alloc, &opener.faces()[face as usize], program)?;
            Ok(loading)
        }
        Ok(Opened::Absent) => Err(LoadStop::NoProgram(path)),
        Ok(Opened::Other) => Err(LoadStop::NoProgram(path)),
        Err(fault) => Err(LoadStop::Search(SearchStop::Open(fault))),
    }
}
