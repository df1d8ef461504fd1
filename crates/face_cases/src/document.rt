//! The document: files with what a loader sees in them, and objects with their bytes.

use case_rows::{Fault, Row};
use toml::{Table, Value};

/// What a document has.
#[derive(Clone, Copy)]
pub struct Document<'a> {
    pub faces: &'a [Value],
    pub objects: &'a [Value],
}

impl<'a> Document<'a> {
    pub fn of(table: &'a Table) -> Result<Document<'a>, Fault> {
        let row = Row::of_table(table, &["face", "object"])?;
        Ok(Document {
            faces: row.list("face")?,
            objects: row.list("object")?,
        })
    }
}

/// What is wanted of a file: the lines of its face, or the line of its flaw.
#[derive(Clone, Copy)]
pub struct Wanted<'a> {
    pub lines: &'a [Value],
    pub flaw: Option<&'a str>,
}

impl<'a> Wanted<'a> {
    fn of(row: &Row<'a>) -> Result<Wanted<'a>, Fault> {
        Ok(Wanted {
            lines: row.list("wants")?,
            flaw: row.text_if_any("flaw")?,
        })
    }
}

/// A file, what is wanted of it, and the same file with changes.
#[derive(Clone, Copy)]
pub struct FaceRow<'a> {
    pub file: &'a Value,
    pub wanted: Wanted<'a>,
    pub changed: &'a [Value],
}

impl<'a> FaceRow<'a> {
    pub fn of(value: &'a Value) -> Result<FaceRow<'a>, Fault> {
        let row = Row::of(value, &["name", "file", "wants", "flaw", "changed"])?;
        Ok(FaceRow {
            file: row.value("file")?,
            wanted: Wanted::of(&row)?,
            changed: row.list("changed")?,
        })
    }
}

/// A file cut to a length and then changed, and what is wanted of it.
#[derive(Clone, Copy)]
pub struct ChangedRow<'a> {
    pub cut: Option<u64>,
    pub changes: &'a [Value],
    pub wanted: Wanted<'a>,
}

impl<'a> ChangedRow<'a> {
    pub fn of(value: &'a Value) -> Result<ChangedRow<'a>, Fault> {
        let row = Row::of(value, &["name", "cut", "changes", "wants", "flaw"])?;
        Ok(ChangedRow {
            cut: row.number_if_any("cut")?,
            changes: row.list("changes")?,
            wanted: Wanted::of(&row)?,
        })
    }
}

/// A shape, and the bytes of the object of this shape: how many, all of them, and some of them.
#[derive(Clone, Copy)]
pub struct ObjectRow<'a> {
    pub shape: &'a Value,
    pub length: u64,
    pub hex: Option<&'a str>,
    pub pieces: &'a [Value],
}

impl<'a> ObjectRow<'a> {
    pub fn of(value: &'a Value) -> Result<ObjectRow<'a>, Fault> {
        let row = Row::of(value, &["name", "shape", "length", "hex", "pieces"])?;
        Ok(ObjectRow {
            shape: row.value("shape")?,
            length: row.number("length")?,
            hex: row.text_if_any("hex")?,
            pieces: row.list("pieces")?,
        })
    }
}

/// The name of a row.
pub fn name_of(value: &Value) -> &str {
    match value.get("name") {
        Some(Value::String(name)) => name.as_str(),
        _ => "a row without a name",
    }
}
