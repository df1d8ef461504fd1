//! The document: worlds, cases, and cases of which each call fails in turn.

use case_files::HashTables;
use case_rows::{Fault, Row};
use toml::{Table, Value};

/// What a document has.
#[derive(Clone, Copy)]
pub struct Document<'a> {
    /// Files that cases share.
    pub worlds: &'a [Value],
    pub cases: &'a [Value],
    /// Cases that are run again and again, each time with another call that fails.
    pub turns: &'a [Value],
}

impl<'a> Document<'a> {
    pub fn of(table: &'a Table) -> Result<Document<'a>, Fault> {
        let row = Row::of_table(table, &["world", "case", "turns"])?;
        Ok(Document {
            worlds: row.list("world")?,
            cases: row.list("case")?,
            turns: row.list("turns")?,
        })
    }
}

/// The names of a case's fields.
const FIELDS: [&str; 11] = [
    "name",
    "words",
    "world",
    "absent",
    "files",
    "chain",
    "written",
    "each_table",
    "finished",
    "failing",
    "wants",
];

/// A call, what is there, and how it is to end.
#[derive(Clone, Copy)]
pub struct Case<'a> {
    pub words: &'a [Value],
    pub files: Files<'a>,
    pub written: Option<Written<'a>>,
    /// Whether it is run once for each way in which objects have hash tables, and the tables of
    /// this run.
    pub each_table: bool,
    pub tables: HashTables,
    /// The paths of the files that the folder holds at first.
    pub finished: &'a [Value],
    pub failing: &'a [Value],
    pub wants: Wants<'a>,
}

impl<'a> Case<'a> {
    pub fn of(document: &Document<'a>, value: &'a Value) -> Result<Case<'a>, Fault> {
        let row = Row::of(value, FIELDS.as_slice())?;
        Ok(Case {
            words: row.list("words")?,
            files: Files::of(document.worlds, &row)?,
            written: written_of(document, value)?,
            each_table: row.flag("each_table")?,
            tables: HashTables::AsShaped,
            finished: row.list("finished")?,
            failing: row.list("failing")?,
            wants: Wants::of(row.value("wants")?)?,
        })
    }
}

/// The files of a tree.
#[derive(Clone, Copy)]
pub struct Files<'a> {
    /// Those of a world, but for those at the paths `absent`.
    pub shared: &'a [Value],
    pub absent: &'a [Value],
    pub own: &'a [Value],
    /// How many libraries there are in a chain, `/usr/local/lib/lib0.so` and on, of which each
    /// needs the next. Their numbers are their identities.
    pub chain: u64,
}

impl<'a> Files<'a> {
    fn of(worlds: &'a [Value], row: &Row<'a>) -> Result<Files<'a>, Fault> {
        Ok(Files {
            shared: files_of_world(worlds, row.text_if_any("world")?)?,
            absent: row.list("absent")?,
            own: row.list("files")?,
            chain: row.number_if_any("chain")?.unwrap_or(0),
        })
    }
}

/// What another case writes, and the place in the tree where it lies.
#[derive(Clone, Copy)]
pub struct Written<'a> {
    pub words: &'a [Value],
    pub files: Files<'a>,
    pub at: &'a str,
}

impl<'a> Written<'a> {
    fn of(document: &Document<'a>, value: &'a Value) -> Result<Written<'a>, Fault> {
        let row = Row::of(value, &["by", "at"])?;
        let writer = writer_of(document.cases, row.text("by")?)?;
        Ok(Written {
            words: writer.list("words")?,
            files: Files::of(document.worlds, &writer)?,
            at: row.text("at")?,
        })
    }
}

fn written_of<'a>(document: &Document<'a>, value: &'a Value) -> Result<Option<Written<'a>>, Fault> {
    match value.get("written") {
        Some(written) => Ok(Some(Written::of(document, written)?)),
        None => Ok(None),
    }
}

/// The case of a name.
fn writer_of<'a>(cases: &'a [Value], name: &str) -> Result<Row<'a>, Fault> {
    for case in cases {
        if name_of(case) == name {
            return Row::of(case, FIELDS.as_slice());
        }
    }
    Err(Fault::Field("by"))
}

/// The name of a case.
pub fn name_of(value: &Value) -> &str {
    match value.get("name") {
        Some(Value::String(name)) => name.as_str(),
        _ => "a case without a name",
    }
}

/// The files of the world of a name; none where no world is named.
fn files_of_world<'a>(worlds: &'a [Value], name: Option<&str>) -> Result<&'a [Value], Fault> {
    let Some(name) = name else {
        return Ok(&[]);
    };
    for world in worlds {
        let row = Row::of(world, &["name", "files"])?;
        if row.text("name")? == name {
            return row.list("files");
        }
    }
    Err(Fault::Field("world"))
}

/// A file of the tree. Where it has no identity of its own it is the path.
#[derive(Clone, Copy)]
pub struct File<'a> {
    pub path: &'a str,
    pub id: &'a str,
    pub content: Content<'a>,
}

/// What a file holds: a text, or the bytes that a table says.
#[derive(Clone, Copy)]
pub enum Content<'a> {
    Text(&'a str),
    Bytes(&'a Value),
}

impl<'a> File<'a> {
    pub fn of(value: &'a Value) -> Result<File<'a>, Fault> {
        let row = Row::of(value, &["path", "id", "text", "bytes"])?;
        let path = row.text("path")?;
        Ok(File {
            path,
            id: row.text_if_any("id")?.unwrap_or(path),
            content: Content::of(&row)?,
        })
    }
}

impl<'a> Content<'a> {
    fn of(row: &Row<'a>) -> Result<Content<'a>, Fault> {
        match row.text_if_any("text")? {
            Some(text) => Ok(Content::Text(text)),
            None => Ok(Content::Bytes(row.value("bytes")?)),
        }
    }
}

#[derive(Clone, Copy, PartialEq, Eq, Debug)]
pub enum Method {
    Probe,
    ReadAt,
    Root,
    Begin,
    Append,
    Finish,
    Put,
}

/// Every method, in the order in which a call may use them.
pub const METHODS: [Method; 7] = [
    Method::Probe,
    Method::ReadAt,
    Method::Root,
    Method::Begin,
    Method::Append,
    Method::Finish,
    Method::Put,
];

impl Method {
    pub fn name(self) -> &'static str {
        match self {
            Method::Probe => "probe",
            Method::ReadAt => "read_at",
            Method::Root => "root",
            Method::Begin => "begin",
            Method::Append => "append",
            Method::Finish => "finish",
            Method::Put => "put",
        }
    }

    fn of(name: &str) -> Result<Method, Fault> {
        for method in METHODS {
            if method.name() == name {
                return Ok(method);
            }
        }
        Err(Fault::Field("method"))
    }
}

/// A call that is to fail, by its number among the calls of its method, from 1.
#[derive(Clone, Copy)]
pub struct Failing {
    pub method: Method,
    pub number: u64,
}

impl Failing {
    pub fn of(value: &Value) -> Result<Failing, Fault> {
        let row = Row::of(value, &["method", "number"])?;
        Ok(Failing {
            method: Method::of(row.text("method")?)?,
            number: row.number("number")?,
        })
    }
}

/// How a case wants to end. Without `line` nothing is to be printed.
#[derive(Clone, Copy)]
pub struct Wants<'a> {
    pub status: &'a str,
    pub line: &'a str,
    /// The path of the one root that is to be opened, if any.
    pub root: Option<&'a str>,
    /// All files of the folder, in order.
    pub finished: &'a [Value],
}

impl<'a> Wants<'a> {
    fn of(value: &'a Value) -> Result<Wants<'a>, Fault> {
        let row = Row::of(value, &["status", "line", "root", "finished"])?;
        Ok(Wants {
            status: row.text("status")?,
            line: row.text_if_any("line")?.unwrap_or(""),
            root: row.text_if_any("root")?,
            finished: row.list("finished")?,
        })
    }
}

/// The names of a wanted file's fields.
const FILE_FIELDS: [&str; 7] = [
    "path",
    "executable",
    "length",
    "text",
    "hex",
    "bytes_of",
    "pieces",
];

/// A finished file: its path and mark, and what is to be said of its bytes, if anything.
#[derive(Clone, Copy)]
pub struct WantedFile<'a> {
    pub path: &'a str,
    pub executable: bool,
    pub length: Option<u64>,
    /// The whole text.
    pub text: Option<&'a str>,
    /// All its bytes.
    pub hex: Option<&'a str>,
    /// The path of a file of the tree that has the same bytes.
    pub bytes_of: Option<&'a str>,
    /// Some of its bytes.
    pub pieces: &'a [Value],
}

impl<'a> WantedFile<'a> {
    pub fn of(value: &'a Value) -> Result<WantedFile<'a>, Fault> {
        let row = Row::of(value, FILE_FIELDS.as_slice())?;
        Ok(WantedFile {
            path: row.text("path")?,
            executable: row.flag("executable")?,
            length: row.number_if_any("length")?,
            text: row.text_if_any("text")?,
            hex: row.text_if_any("hex")?,
            bytes_of: row.text_if_any("bytes_of")?,
            pieces: row.list("pieces")?,
        })
    }
}
