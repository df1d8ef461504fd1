//! The document: made files, the texts that they are to have, and what comes of them.

use case_rows::{Fault, Row, text_of};
use elf_rewrite::Change;
use load_model::{List, Name, NoMemory};
use std::alloc::Global;
use toml::{Table, Value};

/// The names of a case's fields.
const CASE: [&str; 11] = [
    "name", "shape", "changes", "needs", "soname", "runpath", "files", "later", "fails", "pieces",
    "wants",
];

/// A file, other bytes of it at some places, the texts that it is to have, what happens between the
/// two readings, and what is wanted of the new file: some of its bytes, and lines.
#[derive(Clone, Copy)]
pub struct Case<'a> {
    pub shape: &'a Value,
    pub changes: &'a [Value],
    pub needs: &'a [Value],
    pub soname: Option<&'a str>,
    pub runpath: Option<&'a str>,
    /// The files of the versions that are asked, in order.
    pub files: &'a [Value],
    /// Other bytes of the file, once its face was read.
    pub later: &'a [Value],
    /// The method of the tree whose first call fails.
    pub fails: Option<&'a str>,
    pub pieces: &'a [Value],
    pub wants: &'a [Value],
}

impl<'a> Case<'a> {
    pub fn of(value: &'a Value) -> Result<Case<'a>, Fault> {
        let row = Row::of(value, CASE.as_slice())?;
        Ok(Case {
            shape: row.value("shape")?,
            changes: row.list("changes")?,
            needs: row.list("needs")?,
            soname: row.text_if_any("soname")?,
            runpath: row.text_if_any("runpath")?,
            files: row.list("files")?,
            later: row.list("later")?,
            fails: row.text_if_any("fails")?,
            pieces: row.list("pieces")?,
            wants: row.list("wants")?,
        })
    }
}

/// The texts that the file is to have.
pub fn change_of(alloc: Global, case: &Case<'_>) -> Result<Change, Fault> {
    let mut change = Change {
        needs: List::new(alloc),
        soname: None,
        runpath: None,
        files: List::new(alloc),
    };
    push_names(alloc, &mut change.needs, case.needs)?;
    push_names(alloc, &mut change.files, case.files)?;
    change.soname = name_if_any(alloc, case.soname)?;
    change.runpath = name_if_any(alloc, case.runpath)?;
    Ok(change)
}

fn push_names(alloc: Global, names: &mut List<Name>, texts: &[Value]) -> Result<(), Fault> {
    for text in texts {
        names.push(Name::from_bytes(alloc, text_of(text)?.as_bytes())?)?;
    }
    Ok(())
}

fn name_if_any(alloc: Global, text: Option<&str>) -> Result<Option<Name>, NoMemory> {
    match text {
        Some(text) => Ok(Some(Name::from_bytes(alloc, text.as_bytes())?)),
        None => Ok(None),
    }
}

/// The cases of a document that has nothing else.
pub fn cases_of(table: &Table) -> Result<&[Value], Fault> {
    Row::of_table(table, &["case"])?.list("case")
}

/// The name of a case.
pub fn name_of(value: &Value) -> &str {
    match value.get("name") {
        Some(Value::String(name)) => name.as_str(),
        _ => "a case without a name",
    }
}
