//! The document: files, and the references that are looked up in each.

use case_rows::{Fault, Row};
use load_model::Class;
use toml::{Table, Value};

/// The rows of a document.
pub fn lookups_of(table: &Table) -> Result<&[Value], Fault> {
    Row::of_table(table, &["lookup"])?.list("lookup")
}

/// A file, and the references that are looked up in it.
#[derive(Clone, Copy)]
pub struct LookupRow<'a> {
    pub file: &'a Value,
    pub offers: &'a [Value],
}

impl<'a> LookupRow<'a> {
    pub fn of(value: &'a Value) -> Result<LookupRow<'a>, Fault> {
        let row = Row::of(value, &["name", "file", "offers"])?;
        Ok(LookupRow {
            file: row.value("file")?,
            offers: row.list("offers")?,
        })
    }
}

/// A reference, and the index of the symbol that it is to go to: 0 where there is none.
#[derive(Clone, Copy)]
pub struct OfferRow<'a> {
    pub name: &'a str,
    pub version: Option<&'a str>,
    pub class: Class,
    pub at: u32,
}

impl<'a> OfferRow<'a> {
    pub fn of(value: &'a Value) -> Result<OfferRow<'a>, Fault> {
        let row = Row::of(value, &["name", "version", "class", "at"])?;
        Ok(OfferRow {
            name: row.text("name")?,
            version: row.text_if_any("version")?,
            class: class_of(row.text_if_any("class")?)?,
            at: row.count("at")?,
        })
    }
}

/// The class of a word; a plain reference where there is none.
fn class_of(word: Option<&str>) -> Result<Class, Fault> {
    match word {
        None => Ok(Class::Plain),
        Some(word) if word == "call" => Ok(Class::Call),
        Some(word) if word == "copy" => Ok(Class::Copy),
        Some(_) => Err(Fault::Field("class")),
    }
}

/// The name of a row.
pub fn name_of(value: &Value) -> &str {
    match value.get("name") {
        Some(Value::String(name)) => name.as_str(),
        _ => "a row without a name",
    }
}
