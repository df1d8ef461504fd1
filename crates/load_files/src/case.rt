//! The cases of a document, each with its setting, its files, and the lines that it wants.

use case_rows::{Fault, Row};
use toml::{Table, Value};

/// The names of a case's fields.
const CASE: [&str; 10] = [
    "name", "dirs", "lib", "platform", "files", "many", "chained", "program", "opens", "wants",
];

/// What is there, what is loaded, and the lines of the answer.
#[derive(Clone, Copy)]
pub struct Case<'a> {
    /// The listed directories.
    pub dirs: &'a [Value],
    /// The text of the token LIB, if it is set.
    pub lib: Option<&'a str>,
    /// The text of the token PLATFORM, if it is set.
    pub platform: Option<&'a str>,
    pub files: &'a [Value],
    /// How many libraries `/lib64/l1.so` and on there are besides.
    pub many: u32,
    /// Whether each of these needs the next.
    pub chained: bool,
    /// The path of the program; where it is absent that of the first file.
    pub program: Option<&'a str>,
    /// The opened names, in order.
    pub opens: &'a [Value],
    /// The lines of the answer, or with `many` the last of them.
    pub wants: &'a [Value],
}

impl<'a> Case<'a> {
    pub fn of(value: &'a Value) -> Result<Case<'a>, Fault> {
        let row = Row::of(value, CASE.as_slice())?;
        Ok(Case {
            dirs: row.list("dirs")?,
            lib: row.text_if_any("lib")?,
            platform: row.text_if_any("platform")?,
            files: row.list("files")?,
            many: row.count("many")?,
            chained: row.flag("chained")?,
            program: row.text_if_any("program")?,
            opens: row.list("opens")?,
            wants: row.list("wants")?,
        })
    }
}

/// The cases of a document that has nothing else.
pub fn cases_of(table: &Table) -> Result<&[Value], Fault> {
    Row::of_table(table, &["case"])?.list("case")
}

/// The name of a case.
pub fn name_of(value: &Value) -> &str {
    match value.get("name") {
        Some(Value::String(name)) => name.as_str(),
        _ => "a case without a name",
    }
}
