//! Shapes, as a document has them. What is left out is absent, 0 or false, but for the machine,
//! which is that of x86-64, and the System V hash table, which is there.

use byte_view::constants::EM_X86_64;
use case_rows::{Fault, Row, text_of};
use elf_make::{Export, Import, Shape};
use load_model::{Ask, List, Name, NoMemory};
use std::alloc::Global;
use toml::Value;

/// The names of a shape's fields.
const FIELDS: [&str; 15] = [
    "machine", "interp", "soname", "needs", "rpath", "runpath", "symbolic", "imports", "exports",
    "asks", "sysv", "gnu", "spare", "zero", "sections",
];

/// The shape that a table says.
pub fn shape_of(alloc: Global, table: &Value) -> Result<Shape, Fault> {
    let row = Row::of(table, FIELDS.as_slice())?;
    let mut shape = library_shape(alloc)?;
    fill(alloc, &mut shape, &row)?;
    Ok(shape)
}

/// A library that needs nothing.
pub fn library_shape(alloc: Global) -> Result<Shape, Fault> {
    Ok(Shape {
        machine: EM_X86_64,
        interp: None,
        soname: None,
        needs: List::new(alloc),
        rpath: None,
        runpath: None,
        symbolic: false,
        imports: List::new(alloc),
        exports: List::new(alloc),
        asks: List::new(alloc),
        sysv: true,
        gnu: false,
        spare: 0,
        zero: 0,
        sections: false,
    })
}

fn fill(alloc: Global, shape: &mut Shape, row: &Row<'_>) -> Result<(), Fault> {
    set_numbers(shape, row)?;
    set_names(alloc, shape, row)?;
    set_marks(shape, row)?;
    set_lists(alloc, shape, row)
}

fn set_numbers(shape: &mut Shape, row: &Row<'_>) -> Result<(), Fault> {
    if let Some(machine) = row.number_if_any("machine")? {
        shape.machine = u16::try_from(machine).or(Err(Fault::Field("machine")))?;
    }
    if let Some(spare) = row.number_if_any("spare")? {
        shape.spare = u32::try_from(spare).or(Err(Fault::Field("spare")))?;
    }
    shape.zero = row.number_if_any("zero")?.unwrap_or(0);
    Ok(())
}

fn set_names(alloc: Global, shape: &mut Shape, row: &Row<'_>) -> Result<(), Fault> {
    shape.interp = name_if_any(alloc, row, "interp")?;
    shape.soname = name_if_any(alloc, row, "soname")?;
    shape.rpath = name_if_any(alloc, row, "rpath")?;
    shape.runpath = name_if_any(alloc, row, "runpath")?;
    Ok(())
}

fn set_marks(shape: &mut Shape, row: &Row<'_>) -> Result<(), Fault> {
    shape.symbolic = row.flag("symbolic")?;
    shape.gnu = row.flag("gnu")?;
    shape.sections = row.flag("sections")?;
    shape.sysv = row.flag_if_any("sysv")?.unwrap_or(true);
    Ok(())
}

fn set_lists(alloc: Global, shape: &mut Shape, row: &Row<'_>) -> Result<(), Fault> {
    shape.needs = names_of(alloc, row.list("needs")?)?;
    shape.imports = imports_of(alloc, row.list("imports")?)?;
    shape.exports = exports_of(alloc, row.list("exports")?)?;
    shape.asks = asks_of(alloc, row.list("asks")?)?;
    Ok(())
}

fn name(alloc: Global, text: &str) -> Result<Name, NoMemory> {
    Name::from_bytes(alloc, text.as_bytes())
}

fn name_if_any(alloc: Global, row: &Row<'_>, field: &'static str) -> Result<Option<Name>, Fault> {
    match row.text_if_any(field)? {
        Some(text) => Ok(Some(name(alloc, text)?)),
        None => Ok(None),
    }
}

fn names_of(alloc: Global, texts: &[Value]) -> Result<List<Name>, Fault> {
    let mut names = List::new(alloc);
    for text in texts {
        names.push(name(alloc, text_of(text)?)?)?;
    }
    Ok(names)
}

fn imports_of(alloc: Global, tables: &[Value]) -> Result<List<Import>, Fault> {
    let mut imports = List::new(alloc);
    for table in tables {
        imports.push(import_of(alloc, table)?)?;
    }
    Ok(imports)
}

fn import_of(alloc: Global, table: &Value) -> Result<Import, Fault> {
    let row = Row::of(table, &["name", "kind", "value", "file", "version"])?;
    let (kind, value) = (row.byte("kind")?, row.number_if_any("value")?);
    Ok(Import {
        name: name(alloc, row.text("name")?)?,
        kind,
        value: value.unwrap_or(0),
        file: name_if_any(alloc, &row, "file")?,
        version: name_if_any(alloc, &row, "version")?,
    })
}

fn exports_of(alloc: Global, tables: &[Value]) -> Result<List<Export>, Fault> {
    let mut exports = List::new(alloc);
    for table in tables {
        exports.push(export_of(alloc, table)?)?;
    }
    Ok(exports)
}

fn export_of(alloc: Global, table: &Value) -> Result<Export, Fault> {
    let row = Row::of(table, &["name", "kind", "version", "hidden"])?;
    let (kind, hidden) = (row.byte("kind")?, row.flag("hidden")?);
    Ok(Export {
        name: name(alloc, row.text("name")?)?,
        kind,
        version: name_if_any(alloc, &row, "version")?,
        hidden,
    })
}

fn asks_of(alloc: Global, tables: &[Value]) -> Result<List<Ask>, Fault> {
    let mut asks = List::new(alloc);
    for table in tables {
        asks.push(ask_of(alloc, table)?)?;
    }
    Ok(asks)
}

fn ask_of(alloc: Global, table: &Value) -> Result<Ask, Fault> {
    let row = Row::of(table, &["file", "version", "weak"])?;
    let weak = row.flag("weak")?;
    Ok(Ask {
        file: name(alloc, row.text("file")?)?,
        name: name(alloc, row.text("version")?)?,
        weak,
    })
}
