//! The tree, the folder and the sink of a case, and the call.

use crate::case::{Case, Content, Failing, File, Files, Method, Written};
use appdir_cli::{Status, appdir_main};
use case_files::{HashTables, bytes_of, library_of};
use case_rows::{Fault, text_of};
use load_model::{Name, NoMemory};
use path_text::{Abs, Rel};
use ports::{AddFault, Failed, MemOut, MemSink, MemTree, OutDir};
use std::alloc::Global;
use toml::Value;

#[derive(Drop)]
pub struct Outside {
    pub tree: MemTree,
    pub out: MemOut,
    pub sink: MemSink,
}

/// The tree, the folder and the sink of a case.
pub fn outside_of(alloc: Global, case: &Case<'_>) -> Result<Outside, Fault> {
    let mut outside = Outside {
        tree: tree_of(alloc, case)?,
        out: folder_of(alloc, case.finished)?,
        sink: MemSink::new(alloc)?,
    };
    for failing in case.failing {
        let_fail(&mut outside, case, &Failing::of(failing)?)?;
    }
    Ok(outside)
}

/// Puts a call on the list of those that are to fail. What the folder holds at first took a call of
/// each of its methods for each file.
pub fn let_fail(outside: &mut Outside, case: &Case<'_>, failing: &Failing) -> Result<(), NoMemory> {
    let number = failing.number;
    let behind = number.saturating_add(case.finished.len() as u64);
    match failing.method {
        Method::Probe => outside.tree.fail_at(0, number),
        Method::ReadAt => outside.tree.fail_at(1, number),
        Method::Root => outside.out.fail_at(0, behind),
        Method::Begin => outside.out.fail_at(1, behind),
        Method::Append => outside.out.fail_at(2, behind),
        Method::Finish => outside.out.fail_at(3, behind),
        Method::Put => outside.sink.fail_at(0, number),
    }
}

/// Calls the program.
pub fn call(alloc: Global, words: &[Value], outside: &mut Outside) -> Result<Status, Fault> {
    let words = texts_of(alloc, words)?;
    let Outside { tree, out, sink } = outside;
    Ok(appdir_main(alloc, words.as_slice(), tree, out, sink))
}

fn texts_of(alloc: Global, values: &[Value]) -> Result<Vec<String>, Fault> {
    let mut texts = Vec::new(alloc);
    for value in values {
        texts.push(text_of(value)?.to_string(alloc)?)?;
    }
    Ok(texts)
}

/// The file at a path.
pub fn source<'a>(files: &Files<'a>, path: &str) -> Result<File<'a>, Fault> {
    match file_at(files.own, path)? {
        Some(file) => Ok(file),
        None => match file_at(files.shared, path)? {
            Some(file) => Ok(file),
            None => Err(Fault::Field("bytes_of")),
        },
    }
}

fn file_at<'a>(files: &'a [Value], path: &str) -> Result<Option<File<'a>>, Fault> {
    for file in files {
        let file = File::of(file)?;
        if file.path == path {
            return Ok(Some(file));
        }
    }
    Ok(None)
}

fn tree_of(alloc: Global, case: &Case<'_>) -> Result<MemTree, Fault> {
    let mut tree = tree_with(alloc, &case.files, case.tables)?;
    if let Some(written) = &case.written {
        add_written(alloc, &mut tree, written)?;
    }
    Ok(tree)
}

/// A tree with these files alone, whose objects have these hash tables.
fn tree_with(alloc: Global, files: &Files<'_>, tables: HashTables) -> Result<MemTree, Fault> {
    let mut tree = MemTree::new(alloc)?;
    add_files(alloc, &mut tree, files.shared, files.absent, tables)?;
    add_files(alloc, &mut tree, files.own, &[], tables)?;
    add_chain(alloc, &mut tree, files.chain)?;
    Ok(tree)
}

/// Calls the program over the files of another case, and adds those that it finishes.
fn add_written(alloc: Global, tree: &mut MemTree, written: &Written<'_>) -> Result<(), Fault> {
    let mut outside = Outside {
        tree: tree_with(alloc, &written.files, HashTables::AsShaped)?,
        out: MemOut::new(alloc)?,
        sink: MemSink::new(alloc)?,
    };
    call(alloc, written.words, &mut outside)?;
    for file in outside.out.finished() {
        let path = format!(in alloc; "{}/{}", written.at, file.path.as_str())?;
        add(
            alloc,
            tree,
            path.as_str(),
            path.as_str(),
            file.bytes.as_bytes(),
        )?;
    }
    Ok(())
}

/// Adds files, but for those at the paths `absent`.
fn add_files(
    alloc: Global,
    tree: &mut MemTree,
    files: &[Value],
    absent: &[Value],
    tables: HashTables,
) -> Result<(), Fault> {
    for file in files {
        let file = File::of(file)?;
        if !are_texts_with(absent, file.path)? {
            let bytes = content_of(alloc, file.content, tables)?;
            add(alloc, tree, file.path, file.id, bytes.as_slice())?;
        }
    }
    Ok(())
}

/// The bytes of a file; those of an object with these hash tables.
pub fn content_of(
    alloc: Global,
    content: Content<'_>,
    tables: HashTables,
) -> Result<Vec<u8>, Fault> {
    match content {
        Content::Text(text) => Ok(Vec::from_slice(alloc, text.as_bytes())?),
        Content::Bytes(table) => bytes_of(alloc, table, tables),
    }
}

/// Whether a text is one of these.
fn are_texts_with(texts: &[Value], wanted: &str) -> Result<bool, Fault> {
    for text in texts {
        if text_of(text)? == wanted {
            return Ok(true);
        }
    }
    Ok(false)
}

fn add(alloc: Global, tree: &mut MemTree, path: &str, id: &str, bytes: &[u8]) -> Result<(), Fault> {
    let id = Name::from_bytes(alloc, id.as_bytes())?;
    let Ok(path) = Abs::read(alloc, path.as_bytes()) else {
        return Err(Fault::Field("path"));
    };
    match tree.add(&path, &id, bytes) {
        Ok(()) => Ok(()),
        Err(AddFault::Taken) => Err(Fault::Field("path and identity")),
        Err(AddFault::NoMemory) => Err(Fault::NoMemory),
    }
}

/// Adds libraries of which each needs the next, in the first of the listed directories.
fn add_chain(alloc: Global, tree: &mut MemTree, count: u64) -> Result<(), Fault> {
    for number in 0..count {
        let path = format!(in alloc; "/usr/local/lib/lib{number}.so")?;
        let id = format!(in alloc; "{number}")?;
        let bytes = link_of_chain(alloc, number, count)?;
        add(alloc, tree, path.as_str(), id.as_str(), bytes.as_slice())?;
    }
    Ok(())
}

/// The library of this number in a chain of so many.
fn link_of_chain(alloc: Global, number: u64, count: u64) -> Result<Vec<u8>, Fault> {
    let next = number.saturating_add(1);
    if next < count {
        library_of(alloc, Some(format!(in alloc; "lib{next}.so")?.as_str()))
    } else {
        library_of(alloc, None)
    }
}

fn folder_of(alloc: Global, paths: &[Value]) -> Result<MemOut, Fault> {
    let mut out = MemOut::new(alloc)?;
    for path in paths {
        finish_one(alloc, &mut out, text_of(path)?)?;
    }
    Ok(out)
}

fn finish_one(alloc: Global, out: &mut MemOut, path: &str) -> Result<(), Fault> {
    let Ok(root) = Abs::read(alloc, b"/") else {
        return Err(Fault::NoMemory);
    };
    let Ok(path) = Rel::read(alloc, path.as_bytes()) else {
        return Err(Fault::Field("finished path"));
    };
    match write_empty_file(out, &root, &path) {
        Ok(()) => Ok(()),
        Err(Failed) => Err(Fault::NoMemory),
    }
}

/// Writes a whole file without bytes.
fn write_empty_file<O: OutDir>(out: &mut O, root: &Abs, path: &Rel) -> Result<(), Failed> {
    out.root(root)?;
    out.begin(path, false)?;
    out.append(b"")?;
    out.finish()
}
