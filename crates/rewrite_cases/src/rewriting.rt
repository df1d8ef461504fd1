//! The new bytes of a file of a tree, or why there are none.

use crate::fitting::fits;
use case_rows::Fault;
use elf_face::read_face;
use elf_rewrite::Change;
use load_model::{Face, Name, Text};
use object_rewriting::{RewritingStop, rewrite};
use path_text::Abs;
use ports::{AddFault, MemTree};
use std::alloc::Global;

/// What comes of a file.
#[derive(Drop)]
pub enum Outcome {
    File(Text),
    Stop(RewritingStop),
    /// The file has a flaw, or the change does not fit it.
    Unfit,
}

/// What comes of a file that had other bytes when it was loaded.
pub fn rewritten(
    alloc: Global,
    loaded: &[u8],
    tree: &mut MemTree,
    change: &Change,
) -> Result<Outcome, Fault> {
    match read_face(alloc, loaded) {
        Ok(face) => rewritten_by(alloc, &face, tree, change),
        Err(_) => Ok(Outcome::Unfit),
    }
}

#[tactic(auto, using(crate::proofs::FittingLemmas::fits_face))]
fn rewritten_by(
    alloc: Global,
    face: &Face,
    tree: &mut MemTree,
    change: &Change,
) -> Result<Outcome, Fault> {
    let path = object_path(alloc)?;
    if !fits(face, change) {
        return Ok(Outcome::Unfit);
    }
    match rewrite(alloc, tree, &path, face, change) {
        Ok(text) => Ok(Outcome::File(text)),
        Err(RewritingStop::NoMemory) => Err(Fault::NoMemory),
        Err(stop) => Ok(Outcome::Stop(stop)),
    }
}

/// A tree with one file, in which the first call of a method fails.
pub fn tree_of(alloc: Global, bytes: &[u8], fails: Option<&str>) -> Result<MemTree, Fault> {
    let path = object_path(alloc)?;
    let mut tree = MemTree::new(alloc)?;
    match tree.add(&path, &Name::from_bytes(alloc, b"1")?, bytes) {
        Ok(()) => {}
        Err(AddFault::Taken) => return Err(Fault::Field("shape")),
        Err(AddFault::NoMemory) => return Err(Fault::NoMemory),
    }
    match fails {
        None => {}
        Some("probe") => tree.fail_at(0, 1)?,
        Some("read_at") => tree.fail_at(1, 1)?,
        Some(_) => return Err(Fault::Field("fails")),
    }
    Ok(tree)
}

fn object_path(alloc: Global) -> Result<Abs, Fault> {
    match Abs::read(alloc, b"/object") {
        Ok(path) => Ok(path),
        Err(_) => Err(Fault::Field("path")),
    }
}
