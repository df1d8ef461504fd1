//! The symbols and the asks of a file.

use crate::making::name_of;
use byte_view::constants::{
    STB_GLOBAL, STB_GNU_UNIQUE, STB_LOCAL, STB_WEAK, STT_FUNC, STT_NOTYPE, STT_OBJECT, STT_TLS,
    STV_DEFAULT, STV_HIDDEN, STV_INTERNAL, STV_PROTECTED,
};
use case_rows::{Fault, Row};
use load_model::{Ask, List, Name, NoMemory, Sym, Ver};
use std::alloc::Global;
use toml::Value;

/// The names of a symbol's fields.
const SYMBOL: [&str; 9] = [
    "name",
    "version",
    "index",
    "hidden",
    "undefined",
    "valued",
    "binding",
    "kind",
    "visibility",
];

/// The symbols of a file: one without a name, and then these. A file without any has none.
pub fn symbols_of(alloc: Global, values: &[Value]) -> Result<List<Sym>, Fault> {
    let mut symbols = List::new(alloc);
    if !values.is_empty() {
        symbols.push(nameless(alloc)?)?;
    }
    for value in values {
        symbols.push(symbol_of(alloc, value)?)?;
    }
    Ok(symbols)
}

/// The symbol of index 0.
fn nameless(alloc: Global) -> Result<Sym, NoMemory> {
    Ok(Sym {
        name: Name::from_bytes(alloc, b"")?,
        version: Ver::Local,
        hidden: false,
        defined: false,
        value_set: false,
        binding: STB_LOCAL,
        kind: STT_NOTYPE,
        visibility: STV_DEFAULT,
    })
}

/// A global function that is defined, but for what the fields say. One that is undefined has a
/// value only where it is `valued`.
fn symbol_of(alloc: Global, value: &Value) -> Result<Sym, Fault> {
    let row = Row::of(value, SYMBOL.as_slice())?;
    let defined = !row.flag("undefined")?;
    let value_set = defined || row.flag("valued")?;
    let hidden = row.flag("hidden")?;
    let (binding, kind, visibility) = (binding_of(&row)?, kind_of(&row)?, visibility_of(&row)?);
    let version = version_of(alloc, &row)?;
    let name = name_of(alloc, row.text("name")?)?;
    Ok(Sym {
        name,
        version,
        hidden,
        defined,
        value_set,
        binding,
        kind,
        visibility,
    })
}

/// The version of a symbol: of index 1 where none is named.
fn version_of(alloc: Global, row: &Row<'_>) -> Result<Ver, Fault> {
    let index = row.count("index")?;
    match (row.text_if_any("version")?, u16::try_from(index)) {
        (Some("local"), _) => Ok(Ver::Local),
        (Some(name), Ok(index)) => Ok(Ver::Named {
            index,
            name: name_of(alloc, name)?,
        }),
        (Some(_), Err(_)) => Err(Fault::Field("index")),
        (None, _) => Ok(Ver::Global),
    }
}

fn binding_of(row: &Row<'_>) -> Result<u8, Fault> {
    match row.text_if_any("binding")? {
        None => Ok(STB_GLOBAL),
        Some("local") => Ok(STB_LOCAL),
        Some("weak") => Ok(STB_WEAK),
        Some("unique") => Ok(STB_GNU_UNIQUE),
        Some(_) => Err(Fault::Field("binding")),
    }
}

fn kind_of(row: &Row<'_>) -> Result<u8, Fault> {
    match row.text_if_any("kind")? {
        None => Ok(STT_FUNC),
        Some("object") => Ok(STT_OBJECT),
        Some("tls") => Ok(STT_TLS),
        Some("none") => Ok(STT_NOTYPE),
        Some(_) => Err(Fault::Field("kind")),
    }
}

fn visibility_of(row: &Row<'_>) -> Result<u8, Fault> {
    match row.text_if_any("visibility")? {
        None => Ok(STV_DEFAULT),
        Some("internal") => Ok(STV_INTERNAL),
        Some("hidden") => Ok(STV_HIDDEN),
        Some("protected") => Ok(STV_PROTECTED),
        Some(_) => Err(Fault::Field("visibility")),
    }
}

/// The versions that a file asks of others.
pub fn asks_of(alloc: Global, values: &[Value]) -> Result<List<Ask>, Fault> {
    let mut asks = List::new(alloc);
    for value in values {
        asks.push(ask_of(alloc, value)?)?;
    }
    Ok(asks)
}

fn ask_of(alloc: Global, value: &Value) -> Result<Ask, Fault> {
    let row = Row::of(value, &["file", "name", "weak"])?;
    let weak = row.flag("weak")?;
    Ok(Ask {
        file: name_of(alloc, row.text("file")?)?,
        name: name_of(alloc, row.text("name")?)?,
        weak,
    })
}
