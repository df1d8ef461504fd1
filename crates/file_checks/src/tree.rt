//! What the tree of this machine answers.

use crate::step::{Step, below, faulty, said};
use path_text::Abs;
use ports::{Failed, Found, ProbeStop, Tree};
use real_files::RealTree;
use std::alloc::Global;
use std::io;

/// The length of a piece that is read.
const PIECE: usize = 4;

pub fn answer(
    alloc: Global,
    tree: &mut RealTree<&HostRuntime>,
    folder: &Abs,
    step: Step<'_>,
) -> io::Result<String> {
    let path = below(alloc, folder, step.name)?;
    match step.verb {
        "probe" => probe(alloc, tree, folder, &path),
        "read" => read(alloc, tree, &path, step.text),
        "faults" => Ok(format!(in alloc; "{}", tree.faults())?),
        _ => Err(faulty()),
    }
}

/// The length of a file, and its identity below the folder.
fn probe(
    alloc: Global,
    tree: &mut RealTree<&HostRuntime>,
    folder: &Abs,
    path: &Abs,
) -> io::Result<String> {
    match tree.probe(alloc, path) {
        Ok(Found::Absent) => said(alloc, "absent"),
        Ok(Found::File { id, len }) => {
            let real = str::from_utf8(id.as_bytes()).unwrap_or("no text");
            let name = real.strip_prefix(folder.as_str()).unwrap_or(real);
            Ok(format!(in alloc; "{len} bytes of {name}")?)
        }
        Err(ProbeStop::Failed) => said(alloc, "Failed"),
        Err(ProbeStop::NoMemory) => said(alloc, "NoMemory"),
    }
}

/// The bytes of a piece from this place on.
fn read(
    alloc: Global,
    tree: &mut RealTree<&HostRuntime>,
    path: &Abs,
    place: &str,
) -> io::Result<String> {
    let Ok(at) = place.parse::<u64>() else {
        return Err(faulty());
    };
    let mut buf = [0u8; PIECE];
    match tree.read_at(path, at, &mut buf) {
        Ok(n) => said(alloc, str::from_utf8(&buf[..n]).unwrap_or("no text")),
        Err(Failed) => said(alloc, "Failed"),
    }
}
