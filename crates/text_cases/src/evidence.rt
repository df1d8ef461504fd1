//! The evidence of a refusal, field by field.

use case_rows::{Fault, Row, text_of};
use load_model::Name;
use path_text::{Abs, Rel};
use std::alloc::Global;
use toml::Value;

/// The texts and the numbers of a row, each in the order in which its refusal has them.
#[derive(Clone, Copy)]
pub struct Evidence<'a> {
    texts: &'a [Value],
    numbers: &'a [Value],
    difference: Option<&'a str>,
}

impl<'a> Evidence<'a> {
    pub fn of(row: &Row<'a>) -> Result<Evidence<'a>, Fault> {
        Ok(Evidence {
            texts: row.list("texts")?,
            numbers: row.list("numbers")?,
            difference: row.text_if_any("difference")?,
        })
    }

    /// The text with this index, as a path.
    pub fn path(&self, alloc: Global, index: usize) -> Result<Abs, Fault> {
        match Abs::read(alloc, self.text(index)?.as_bytes()) {
            Ok(path) => Ok(path),
            Err(_) => Err(Fault::Field("path")),
        }
    }

    /// The text with this index, as a target.
    pub fn target(&self, alloc: Global, index: usize) -> Result<Rel, Fault> {
        match Rel::read(alloc, self.text(index)?.as_bytes()) {
            Ok(path) => Ok(path),
            Err(_) => Err(Fault::Field("target")),
        }
    }

    /// The text with this index, as a name.
    pub fn name(&self, alloc: Global, index: usize) -> Result<Name, Fault> {
        Ok(Name::from_bytes(alloc, self.text(index)?.as_bytes())?)
    }

    /// The text with this index as a name, where there are so many texts.
    pub fn name_if_any(&self, alloc: Global, index: usize) -> Result<Option<Name>, Fault> {
        if index < self.texts.len() {
            Ok(Some(self.name(alloc, index)?))
        } else {
            Ok(None)
        }
    }

    /// The number with this index, from 0 to 2 ^ 63 - 1.
    pub fn number(&self, index: usize) -> Result<u64, Fault> {
        match self.numbers.get(index) {
            Some(Value::Integer(number)) if *number >= 0 => Ok(*number as u64),
            _ => Err(Fault::Field("number")),
        }
    }

    /// The number with this index, where it is below 256.
    pub fn byte(&self, index: usize) -> Result<u8, Fault> {
        match u8::try_from(self.number(index)?) {
            Ok(number) => Ok(number),
            Err(_) => Err(Fault::Field("number below 256")),
        }
    }

    /// The number with this index, where it is below 2 ^ 32.
    pub fn word(&self, index: usize) -> Result<u32, Fault> {
        match u32::try_from(self.number(index)?) {
            Ok(number) => Ok(number),
            Err(_) => Err(Fault::Field("number below 2 ^ 32")),
        }
    }

    /// The name of the difference between a host and a record.
    pub fn difference(&self) -> Result<&'a str, Fault> {
        match self.difference {
            Some(name) => Ok(name),
            None => Err(Fault::Field("difference")),
        }
    }

    /// The text with this index, as it is.
    pub fn text(&self, index: usize) -> Result<&'a str, Fault> {
        match self.texts.get(index) {
            Some(text) => text_of(text),
            None => Err(Fault::Field("number of texts")),
        }
    }
}
