//! The tree of a case: the record of its directory, and its files. Where a file has no identity of
//! its own it is the path.

use crate::case::Case;
use case_files::{HashTables, bytes_of};
use case_rows::{Fault, Row, text_of};
use load_model::{List, Name};
use path_text::Abs;
use ports::{AddFault, MemTree};
use std::alloc::Global;
use toml::Value;

pub fn tree_of(alloc: Global, case: &Case<'_>) -> Result<MemTree, Fault> {
    let mut tree = MemTree::new(alloc)?;
    if let Some(text) = case.text {
        let path = format!(in alloc; "{}/usr/share/appdir/host.txt", case.place)?;
        add(
            alloc,
            &mut tree,
            path.as_str(),
            path.as_str(),
            text.as_bytes(),
        )?;
    }
    for file in case.files {
        add_file(alloc, &mut tree, file)?;
    }
    Ok(tree)
}

fn add_file(alloc: Global, tree: &mut MemTree, file: &Value) -> Result<(), Fault> {
    let row = Row::of(file, &["path", "id", "bytes"])?;
    let path = row.text("path")?;
    let id = row.text_if_any("id")?.unwrap_or(path);
    add_made(alloc, tree, path, id, row.value("bytes")?)
}

fn add_made(
    alloc: Global,
    tree: &mut MemTree,
    path: &str,
    id: &str,
    bytes: &Value,
) -> Result<(), Fault> {
    let bytes = bytes_of(alloc, bytes, HashTables::AsShaped)?;
    add(alloc, tree, path, id, bytes.as_slice())
}

fn add(alloc: Global, tree: &mut MemTree, path: &str, id: &str, bytes: &[u8]) -> Result<(), Fault> {
    let id = Name::from_bytes(alloc, id.as_bytes())?;
    let path = path_of(alloc, path)?;
    match tree.add(&path, &id, bytes) {
        Ok(()) => Ok(()),
        Err(AddFault::Taken) => Err(Fault::Field("path and identity")),
        Err(AddFault::NoMemory) => Err(Fault::NoMemory),
    }
}

pub fn path_of(alloc: Global, text: &str) -> Result<Abs, Fault> {
    match Abs::read(alloc, text.as_bytes()) {
        Ok(path) => Ok(path),
        Err(_) => Err(Fault::Field("path")),
    }
}

pub fn paths_of(alloc: Global, texts: &[Value]) -> Result<List<Abs>, Fault> {
    let mut paths = List::new(alloc);
    for text in texts {
        paths.push(path_of(alloc, text_of(text)?)?)?;
    }
    Ok(paths)
}
