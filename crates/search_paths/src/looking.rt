//! A candidate of a search: the path that it spells is opened, once.
//!
//! Candidates are said in `specs/Candidates.antt` of `load_model`.

ghost use Rattle.std.specs.Prelude.{◌≡◌, ◌≢◌, ◌∷◌, ◌++◌, [], IfErr, IfOk, MatchResult};
ghost use Rattle.path_text.specs.Path.{begins_at_root, path_of};
ghost use Rattle.load_model.specs.Candidates.{At, candidate_at, candidate_in};
ghost use Rattle.load_model.specs.Opening.{OnlyGrew};
ghost use Rattle.load_model.specs.RunPaths.{Folder};
ghost use Rattle.search_paths.specs.HeldItems.{IsItemStop, item_held};
ghost use Rattle.search_paths.specs.Searching.{Decides, IsAnswer, IsByOpening};

use crate::expanding::expand;
use crate::hits::{Hit, SearchStop};
use crate::run_paths::HeldItem;
use load_model::{Name, Opened, Opener, Setting};
use path_text::{Abs, PathFault};
use std::alloc::{AllocError, Global};

/// Looks in an item of a run path, which is expanded now.
pub fn look_in_item<P: Opener>(
    alloc: Global,
    opener: &mut P,
    setting: &Setting,
    item: &HeldItem,
    name: &Name,
) -> Result<Hit, SearchStop>
    ensures answer { IsAnswer (Decides (P.seen opener.old) (candidate_in name.now (item_held
        setting.now item.now))) (P.seen opener.old) (P.seen opener.new) result }
    ensures grew { OnlyGrew (P.seen opener.old) (P.seen opener.new) }
{
    match folder_text(alloc, setting, item) {
        Ok(folder) => look_in(alloc, opener, folder.as_slice(), name),
        Err(stop) => Err(stop),
    }
}

/// The folder that an item names, or why it is refused.
fn folder_text(alloc: Global, setting: &Setting, item: &HeldItem) -> Result<Vec<u8>, SearchStop>
    ensures { MatchResult result (λ v. item_held setting.now item.now ≡ Folder v.items) (λ stop.
        IsItemStop (item_held setting.now item.now) stop) }
{
    let expanded = expand(alloc, setting, &item.folder, item.text.as_bytes())?;
    let Some(text) = expanded else {
        let item = item.text.copy(alloc)?;
        return Err(SearchStop::TokenUnset(item));
    };
    if begins_at_root(text.as_slice()) {
        return Ok(text);
    }
    let item = item.text.copy(alloc)?;
    Err(SearchStop::RelativeItem(item))
}

/// Looks in a listed directory.
pub fn look_in_dir<P: Opener>(
    alloc: Global,
    opener: &mut P,
    dir: &Abs,
    name: &Name,
) -> Result<Hit, SearchStop>
    ensures answer { IsAnswer (Decides (P.seen opener.old) (candidate_in name.now (Folder dir.now)))
        (P.seen opener.old) (P.seen opener.new) result }
    ensures grew { OnlyGrew (P.seen opener.old) (P.seen opener.new) }
    ensures alone { IfErr result (λ stop. IsByOpening stop) }
{
    look_in(alloc, opener, dir.as_str().as_bytes(), name)
}

/// Looks in a folder.
fn look_in<P: Opener>(
    alloc: Global,
    opener: &mut P,
    folder: &[u8],
    name: &Name,
) -> Result<Hit, SearchStop>
    ensures answer { IsAnswer (Decides (P.seen opener.old) (candidate_in name.now (Folder
        folder.now))) (P.seen opener.old) (P.seen opener.new) result }
    ensures grew { OnlyGrew (P.seen opener.old) (P.seen opener.new) }
    ensures alone { IfErr result (λ stop. IsByOpening stop) }
{
    let text = joined(alloc, folder, name.as_bytes())?;
    look_at(alloc, opener, text.as_slice())
}

/// The folder, a slash and the name.
fn joined(alloc: Global, folder: &[u8], name: &[u8]) -> Result<Vec<u8>, AllocError>
    ensures { IfOk result (λ v. v.items ≡ folder.now ++ 47 ∷ name.now) }
{
    let mut text = Vec::from_slice(alloc, folder)?;
    text.push(b'/')?;
    text.extend_from_slice(name)?;
    Ok(text)
}

/// Looks at the path that a text spells, if it spells one.
pub fn look_at<P: Opener>(alloc: Global, opener: &mut P, text: &[u8]) -> Result<Hit, SearchStop>
    ensures answer { IsAnswer (Decides (P.seen opener.old) (candidate_at (path_of text.now)))
        (P.seen opener.old) (P.seen opener.new) result }
    ensures grew { OnlyGrew (P.seen opener.old) (P.seen opener.new) }
    ensures alone { IfErr result (λ stop. IsByOpening stop) }
{
    match Abs::read(alloc, text) {
        Ok(path) => open(alloc, opener, path),
        Err(fault) => no_path(fault),
    }
}

/// A text that spells no path is no candidate.
fn no_path(fault: PathFault) -> Result<Hit, SearchStop>
    ensures { MatchResult result (λ hit. (hit ≡ Hit.Missing) × (fault ≢ PathFault.NoMemory)) (λ
        stop. stop ≡ SearchStop.NoMemory) }
{
    match fault {
        PathFault::NoMemory => Err(SearchStop::NoMemory),
        _ => Ok(Hit::Missing),
    }
}

/// Whether the first byte is a slash.
pub fn begins_at_root(text: &[u8]) -> bool
    ensures { result ≡ begins_at_root text.now }
{
    text.first() == Some(&b'/')
}

fn open<P: Opener>(alloc: Global, opener: &mut P, path: Abs) -> Result<Hit, SearchStop>
    ensures answer { IsAnswer (Decides (P.seen opener.old) (At path ∷ [])) (P.seen opener.old)
        (P.seen opener.new) result }
    ensures grew { OnlyGrew (P.seen opener.old) (P.seen opener.new) }
    ensures alone { IfErr result (λ stop. IsByOpening stop) }
{
    match opener.open(alloc, &path) {
        Ok(Opened::Absent) => Ok(Hit::Missing),
        Ok(Opened::Other) => Ok(Hit::Missing),
        Ok(Opened::Object { id, face }) => Ok(Hit::Found { path, id, face }),
        Err(fault) => Err(SearchStop::Open(fault)),
    }
}
