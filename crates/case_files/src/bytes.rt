//! The bytes of a file.
//!
//! They are those of `hex` or of an object of a `shape`. They are `cut` to a length, and then
//! `changes` are made in them, each of `hex` at the place `at`.

use crate::shape::{library_shape, shape_of};
use crate::tables::HashTables;
use case_rows::{Fault, Row, decoded};
use elf_make::{Shape, make_object};
use load_model::Name;
use std::alloc::Global;
use toml::Value;

/// The bytes that a table says; an object of a shape with these hash tables.
pub fn bytes_of(alloc: Global, table: &Value, tables: HashTables) -> Result<Vec<u8>, Fault> {
    let row = Row::of(table, &["hex", "shape", "cut", "changes"])?;
    let bytes = whole(alloc, &row, tables)?;
    altered(
        alloc,
        bytes,
        row.number_if_any("cut")?,
        row.list("changes")?,
    )
}

/// The bytes, cut and then changed.
pub fn altered(
    alloc: Global,
    mut bytes: Vec<u8>,
    count: Option<u64>,
    changes: &[Value],
) -> Result<Vec<u8>, Fault> {
    cut(&mut bytes, count)?;
    for piece in changes {
        change(alloc, bytes.as_mut_slice(), piece)?;
    }
    Ok(bytes)
}

/// The object of a shape, with these hash tables.
pub fn object_of(alloc: Global, shape: &Value, tables: HashTables) -> Result<Vec<u8>, Fault> {
    let mut shape = shape_of(alloc, shape)?;
    tables.set(&mut shape);
    made(alloc, &shape)
}

/// A library that needs this one, or none.
pub fn library_of(alloc: Global, need: Option<&str>) -> Result<Vec<u8>, Fault> {
    let mut shape = library_shape(alloc)?;
    if let Some(need) = need {
        shape.needs.push(Name::from_bytes(alloc, need.as_bytes())?)?;
    }
    made(alloc, &shape)
}

/// Whether each of these pieces stands at its place.
pub fn has_pieces(alloc: Global, bytes: &[u8], pieces: &[Value]) -> Result<bool, Fault> {
    for piece in pieces {
        if !has_piece(alloc, bytes, piece)? {
            return Ok(false);
        }
    }
    Ok(true)
}

fn made(alloc: Global, shape: &Shape) -> Result<Vec<u8>, Fault> {
    let object = make_object(alloc, shape)?;
    Ok(Vec::from_slice(alloc, object.as_bytes())?)
}

/// The bytes before they are cut and changed.
fn whole(alloc: Global, row: &Row<'_>, tables: HashTables) -> Result<Vec<u8>, Fault> {
    match row.text_if_any("hex")? {
        Some(digits) => decoded(alloc, digits),
        None => object_of(alloc, row.value("shape")?, tables),
    }
}

/// Leaves as many bytes as there are to be.
fn cut(bytes: &mut Vec<u8>, count: Option<u64>) -> Result<(), Fault> {
    let Some(count) = count else {
        return Ok(());
    };
    if count > bytes.len() as u64 {
        return Err(Fault::Field("cut"));
    }
    bytes.truncate(count as usize);
    Ok(())
}

/// Puts other bytes at a place.
fn change(alloc: Global, bytes: &mut [u8], piece: &Value) -> Result<(), Fault> {
    let (at, digits) = place_and_bytes(alloc, piece)?;
    for (i, byte) in digits.as_slice().iter().enumerate() {
        match bytes.get_mut(i.wrapping_add(at)) {
            Some(place) => *place = *byte,
            None => return Err(Fault::Field("at")),
        }
    }
    Ok(())
}

fn has_piece(alloc: Global, bytes: &[u8], piece: &Value) -> Result<bool, Fault> {
    let (at, digits) = place_and_bytes(alloc, piece)?;
    match bytes.get(at..) {
        Some(behind) => Ok(behind.starts_with(digits.as_slice())),
        None => Ok(false),
    }
}

fn place_and_bytes(alloc: Global, piece: &Value) -> Result<(usize, Vec<u8>), Fault> {
    let row = Row::of(piece, &["at", "hex"])?;
    let at = row.number("at")? as usize;
    Ok((at, decoded(alloc, row.text("hex")?)?))
}
