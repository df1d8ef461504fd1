//! The files of a case, each as a loader sees it.

use case_rows::{Fault, Row};
use toml::Value;

/// The names of a file's fields.
const FILE: [&str; 14] = [
    "path",
    "id",
    "is",
    "interp",
    "soname",
    "needs",
    "fan",
    "rpath",
    "runpath",
    "symbolic",
    "symbols",
    "versioned",
    "defs",
    "asks",
];

/// A file: an object, or what `is` says.
#[derive(Clone, Copy)]
pub struct File<'a> {
    pub path: &'a str,
    /// Where it is absent it is the path.
    pub id: &'a str,
    pub is: Option<Odd>,
    /// The path of its program interpreter.
    pub interp: Option<&'a str>,
    pub soname: Option<&'a str>,
    pub needs: &'a [Value],
    /// How many of the libraries `l1.so` and on it needs besides.
    pub fan: u32,
    pub rpath: Option<&'a str>,
    pub runpath: Option<&'a str>,
    pub symbolic: bool,
    /// Its symbols from index 1 on.
    pub symbols: &'a [Value],
    /// Whether it has a table of version indexes.
    pub versioned: bool,
    /// The names of its version definitions.
    pub defs: &'a [Value],
    /// The versions that it asks of other files.
    pub asks: &'a [Value],
}

impl<'a> File<'a> {
    pub fn of(value: &'a Value) -> Result<File<'a>, Fault> {
        let row = Row::of(value, FILE.as_slice())?;
        let path = row.text("path")?;
        Ok(File {
            path,
            id: row.text_if_any("id")?.unwrap_or(path),
            is: odd_of(&row)?,
            interp: row.text_if_any("interp")?,
            soname: row.text_if_any("soname")?,
            needs: row.list("needs")?,
            fan: row.count("fan")?,
            rpath: row.text_if_any("rpath")?,
            runpath: row.text_if_any("runpath")?,
            symbolic: row.flag("symbolic")?,
            symbols: row.list("symbols")?,
            versioned: row.flag("versioned")?,
            defs: row.list("defs")?,
            asks: row.list("asks")?,
        })
    }

    /// The path of a file.
    pub fn path_of(value: &'a Value) -> Result<&'a str, Fault> {
        Ok(File::of(value)?.path)
    }
}

/// What is no object: a file of another class or machine, a damaged one, one that no read gives.
#[derive(Clone, Copy)]
pub enum Odd {
    Other,
    Damaged,
    Unreadable,
}

fn odd_of(row: &Row<'_>) -> Result<Option<Odd>, Fault> {
    match row.text_if_any("is")? {
        None => Ok(None),
        Some("other") => Ok(Some(Odd::Other)),
        Some("damaged") => Ok(Some(Odd::Damaged)),
        Some("unreadable") => Ok(Some(Odd::Unreadable)),
        Some(_) => Err(Fault::Field("is")),
    }
}
