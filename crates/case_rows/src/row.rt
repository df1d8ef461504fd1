//! Rows of a document: tables whose fields are read by name.

use crate::fault::Fault;
use toml::{Table, Value};

/// A table of which every field has a name that its reader knows.
#[derive(Clone, Copy)]
pub struct Row<'a> {
    fields: &'a Table,
}

impl<'a> Row<'a> {
    /// The row of a value that is a table without fields of other names.
    pub fn of(value: &'a Value, names: &[&str]) -> Result<Row<'a>, Fault> {
        match value.as_table() {
            Some(fields) => Row::of_table(fields, names),
            None => Err(Fault::Field("table")),
        }
    }

    /// The row of a table without fields of other names.
    pub fn of_table(fields: &'a Table, names: &[&str]) -> Result<Row<'a>, Fault> {
        for name in fields.keys() {
            if !is_one_of(name.as_str(), names) {
                return Err(Fault::Field("name of a field"));
            }
        }
        Ok(Row { fields })
    }

    /// The value of a field.
    pub fn value(&self, name: &'static str) -> Result<&'a Value, Fault> {
        match self.fields.get(name) {
            Some(value) => Ok(value),
            None => Err(Fault::Field(name)),
        }
    }

    pub fn text(&self, name: &'static str) -> Result<&'a str, Fault> {
        match self.text_if_any(name)? {
            Some(text) => Ok(text),
            None => Err(Fault::Field(name)),
        }
    }

    pub fn text_if_any(&self, name: &'static str) -> Result<Option<&'a str>, Fault> {
        match self.fields.get(name) {
            Some(Value::String(text)) => Ok(Some(text.as_str())),
            Some(_) => Err(Fault::Field(name)),
            None => Ok(None),
        }
    }

    /// The number of a field, from 0 to 2 ^ 63 - 1.
    pub fn number(&self, name: &'static str) -> Result<u64, Fault> {
        match self.number_if_any(name)? {
            Some(number) => Ok(number),
            None => Err(Fault::Field(name)),
        }
    }

    pub fn number_if_any(&self, name: &'static str) -> Result<Option<u64>, Fault> {
        match self.fields.get(name) {
            Some(Value::Integer(number)) if *number >= 0 => Ok(Some(*number as u64)),
            Some(_) => Err(Fault::Field(name)),
            None => Ok(None),
        }
    }

    /// The number of a field that is below 2 ^ 32; 0 where it is absent.
    pub fn count(&self, name: &'static str) -> Result<u32, Fault> {
        match u32::try_from(self.number_if_any(name)?.unwrap_or(0)) {
            Ok(count) => Ok(count),
            Err(_) => Err(Fault::Field(name)),
        }
    }

    /// The number of a field that is below 256.
    pub fn byte(&self, name: &'static str) -> Result<u8, Fault> {
        match u8::try_from(self.number(name)?) {
            Ok(byte) => Ok(byte),
            Err(_) => Err(Fault::Field(name)),
        }
    }

    /// Whether a field says `true`. Where it is absent it does not.
    pub fn flag(&self, name: &'static str) -> Result<bool, Fault> {
        Ok(self.flag_if_any(name)?.unwrap_or(false))
    }

    pub fn flag_if_any(&self, name: &'static str) -> Result<Option<bool>, Fault> {
        match self.fields.get(name) {
            Some(Value::Boolean(flag)) => Ok(Some(*flag)),
            Some(_) => Err(Fault::Field(name)),
            None => Ok(None),
        }
    }

    /// The values of a field that has a list; none where it is absent.
    pub fn list(&self, name: &'static str) -> Result<&'a [Value], Fault> {
        match self.fields.get(name) {
            Some(Value::Array(values)) => Ok(values.as_slice()),
            Some(_) => Err(Fault::Field(name)),
            None => Ok(&[]),
        }
    }
}

/// The text of a value.
pub fn text_of(value: &Value) -> Result<&str, Fault> {
    match value.as_str() {
        Some(text) => Ok(text),
        None => Err(Fault::Field("text")),
    }
}

fn is_one_of(name: &str, names: &[&str]) -> bool {
    names.iter().any(|known| *known == name)
}
