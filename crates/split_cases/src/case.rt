//! The cases of a document, each with its files, its programs, its host list, and the lines that it
//! wants, of its split and of the names of its libraries.

use case_rows::{Fault, Row};
use load_files::Case;
use toml::Value;

/// The names of a case's fields.
const BUILD: [&str; 7] = [
    "name", "dirs", "files", "programs", "names", "wants", "layout",
];

/// What is there, what is loaded, the host list, and the lines of both answers.
#[derive(Clone, Copy)]
pub struct BuildCase<'a> {
    /// The listed directories.
    pub dirs: &'a [Value],
    pub files: &'a [Value],
    /// The programs, each with its path and the names that it opens.
    pub programs: &'a [Value],
    /// The names of the host list.
    pub names: &'a [Value],
    /// The lines of the split.
    pub wants: &'a [Value],
    /// The lines of the names, where the case says them.
    pub layout: &'a [Value],
}

impl<'a> BuildCase<'a> {
    pub fn of(value: &'a Value) -> Result<BuildCase<'a>, Fault> {
        let row = Row::of(value, BUILD.as_slice())?;
        Ok(BuildCase {
            dirs: row.list("dirs")?,
            files: row.list("files")?,
            programs: row.list("programs")?,
            names: row.list("names")?,
            wants: row.list("wants")?,
            layout: row.list("layout")?,
        })
    }

    /// What a case of files has of it.
    pub fn files_alone(&self) -> Case<'a> {
        self.wanting(self.wants)
    }

    /// The same, with the lines of the names in place of those of the split.
    pub fn layout_alone(&self) -> Case<'a> {
        self.wanting(self.layout)
    }

    fn wanting(&self, wants: &'a [Value]) -> Case<'a> {
        Case {
            dirs: self.dirs,
            lib: None,
            platform: None,
            files: self.files,
            many: 0,
            chained: false,
            program: None,
            opens: &[],
            wants,
        }
    }
}

/// A program, and the names that it opens.
#[derive(Clone, Copy)]
pub struct Started<'a> {
    pub path: &'a str,
    pub opens: &'a [Value],
}

impl<'a> Started<'a> {
    pub fn of(value: &'a Value) -> Result<Started<'a>, Fault> {
        let row = Row::of(value, &["path", "opens"])?;
        Ok(Started {
            path: row.text("path")?,
            opens: row.list("opens")?,
        })
    }
}
