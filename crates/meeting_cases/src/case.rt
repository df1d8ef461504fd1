//! A case: a tree with a record in it, the directories in which libraries are looked for, and what
//! the check comes to.

use case_rows::{Fault, Row};
use toml::Value;

/// The names of a case's fields.
const FIELDS: [&str; 8] = [
    "name", "place", "record", "dirs", "files", "probes", "reads", "wants",
];

#[derive(Clone, Copy)]
pub struct Case<'a> {
    /// Where the directory lies.
    pub place: &'a str,
    /// The text of its record, where there is one.
    pub text: Option<&'a str>,
    pub dirs: &'a [Value],
    /// The other files.
    pub files: &'a [Value],
    /// How many calls of each method are made, where they are counted.
    pub counts: Option<Counts>,
    /// The line that is wanted, without its end.
    pub wants: &'a str,
}

/// How many calls of each method a check makes.
#[derive(Clone, Copy)]
pub struct Counts {
    pub probes: u64,
    pub reads: u64,
}

impl<'a> Case<'a> {
    pub fn of(value: &'a Value) -> Result<Case<'a>, Fault> {
        let row = Row::of(value, FIELDS.as_slice())?;
        Ok(Case {
            place: row.text("place")?,
            text: row.text_if_any("record")?,
            dirs: row.list("dirs")?,
            files: row.list("files")?,
            counts: counts_of(&row)?,
            wants: row.text("wants")?,
        })
    }

    /// Whether the line is the one that is wanted.
    pub fn wants_line(&self, line: &[u8]) -> bool {
        match line.strip_suffix(b"\n") {
            Some(line) => line == self.wants.as_bytes(),
            None => false,
        }
    }
}

fn counts_of(row: &Row<'_>) -> Result<Option<Counts>, Fault> {
    match row.number_if_any("probes")? {
        Some(probes) => Ok(Some(Counts {
            probes,
            reads: row.number("reads")?,
        })),
        None => Ok(None),
    }
}

/// The name of a case.
pub fn name_of(value: &Value) -> &str {
    match value.get("name") {
        Some(Value::String(name)) => name.as_str(),
        _ => "a case without a name",
    }
}
