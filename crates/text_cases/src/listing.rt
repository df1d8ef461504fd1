//! The list of the files of a row.

use appdir_files::{Body, Item};
use case_rows::{Fault, Row, text_of};
use load_model::Text;
use manifest::manifest_text;
use path_text::{Abs, Rel};
use std::alloc::Global;
use toml::Value;

/// The list of a row that is to have another.
pub fn differing_list(alloc: Global, value: &Value) -> Result<Option<Text>, Fault> {
    let row = Row::of(value, &["name", "files", "lines"])?;
    let wanted = joined_lines(alloc, row.list("lines")?)?;
    let text = list_of(alloc, &row)?;
    if text.as_bytes() == wanted.as_slice() {
        Ok(None)
    } else {
        Ok(Some(text))
    }
}

/// The list of the files of a row.
fn list_of(alloc: Global, row: &Row<'_>) -> Result<Text, Fault> {
    let items = items_of(alloc, row.list("files")?)?;
    Ok(manifest_text(alloc, items.as_slice())?)
}

fn joined_lines(alloc: Global, lines: &[Value]) -> Result<Vec<u8>, Fault> {
    let mut text = Vec::new(alloc);
    for line in lines {
        text.extend_from_slice(text_of(line)?.as_bytes())?;
        text.push(b'\n')?;
    }
    Ok(text)
}

fn items_of(alloc: Global, files: &[Value]) -> Result<Vec<Item>, Fault> {
    let mut items = Vec::new(alloc);
    for file in files {
        items.push(item_of(alloc, file)?)?;
    }
    Ok(items)
}

fn item_of(alloc: Global, value: &Value) -> Result<Item, Fault> {
    let row = Row::of(value, &["path", "executable", "bytes", "from", "length"])?;
    let executable = row.flag("executable")?;
    let path = path_of(alloc, &row)?;
    Ok(Item {
        path,
        executable,
        body: body_of(alloc, &row)?,
    })
}

/// Where the file lies in the directory.
fn path_of(alloc: Global, row: &Row<'_>) -> Result<Rel, Fault> {
    match Rel::read(alloc, row.text("path")?.as_bytes()) {
        Ok(path) => Ok(path),
        Err(_) => Err(Fault::Field("path")),
    }
}

/// Bytes at hand, or the length of a file that is copied.
fn body_of(alloc: Global, row: &Row<'_>) -> Result<Body, Fault> {
    match row.text_if_any("bytes")? {
        Some(bytes) => Ok(Body::Bytes(Text::from_bytes(alloc, bytes.as_bytes())?)),
        None => copy_of(alloc, row),
    }
}

fn copy_of(alloc: Global, row: &Row<'_>) -> Result<Body, Fault> {
    let len = row.number("length")?;
    match Abs::read(alloc, row.text("from")?.as_bytes()) {
        Ok(from) => Ok(Body::Copy { from, len }),
        Err(_) => Err(Fault::Field("from")),
    }
}
