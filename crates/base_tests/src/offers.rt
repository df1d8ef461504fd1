//! What an object offers to a reference, by version and by class.

use byte_view::constants::{EM_X86_64, STB_GLOBAL, STT_FUNC, STV_DEFAULT};
use load_model::{Class, Face, List, Name, NoMemory, Offers, Sym, Ver};
use std::alloc::Global;

/// A function `g` with a value: its version index, which is also the name of its version.
#[derive(Clone, Copy)]
struct Row {
    index: u8,
    hidden: bool,
    defined: bool,
}

const fn shown(index: u8) -> Row {
    Row {
        index,
        hidden: false,
        defined: true,
    }
}

const fn hidden(index: u8) -> Row {
    Row {
        index,
        hidden: true,
        defined: true,
    }
}

const fn undefined(index: u8) -> Row {
    Row {
        index,
        hidden: false,
        defined: false,
    }
}

fn symbol(alloc: Global, row: Row) -> Result<Sym, NoMemory> {
    let version = match row.index {
        0 => Ver::Local,
        1 => Ver::Global,
        _ => Ver::Named {
            index: u16::from(row.index),
            name: Name::from_bytes(alloc, &[row.index])?,
        },
    };
    Ok(Sym {
        name: Name::from_bytes(alloc, b"g")?,
        version,
        hidden: row.hidden,
        defined: row.defined,
        value_set: true,
        binding: STB_GLOBAL,
        kind: STT_FUNC,
        visibility: STV_DEFAULT,
    })
}

/// An object with these symbols from index 1 on.
fn object(alloc: Global, versioned: bool, rows: &[Row]) -> Result<Face, NoMemory> {
    let mut syms = List::new(alloc);
    syms.push(symbol(alloc, shown(1))?)?;
    for row in rows {
        syms.push(symbol(alloc, *row)?)?;
    }
    let mut face = Face::empty(alloc, EM_X86_64);
    face.syms = syms;
    face.versioned = versioned;
    Ok(face)
}

/// What a reference to `g` gets in an object of few symbols.
fn offered(face: &Face, version: Option<&[u8]>, class: Class) -> Option<u32> {
    if face.syms.as_slice().len() < 9 {
        face.offer(b"g", version, class)
    } else {
        None
    }
}

#[test]
fn offers_by_version(rt: HostRuntime) {
    let three = Some([3].as_slice());
    for (rows, version, answer) in [
        // Without a version: index 1 or 2, hidden or not, and else the only one that is shown.
        ([hidden(3), hidden(4), shown(5)], None, Some(3)),
        ([hidden(3), shown(4), shown(5)], None, None),
        ([shown(5), hidden(2), shown(1)], None, Some(2)),
        ([shown(0), shown(0), shown(0)], None, None),
        // With a version: that version, hidden or not, and index 1 where it is not hidden.
        ([shown(2), hidden(3), shown(3)], three, Some(2)),
        ([hidden(1), shown(1), shown(3)], three, Some(2)),
        ([shown(0), hidden(1), shown(2)], three, None),
    ] {
        match object(rt.alloc(), true, &rows) {
            Ok(face) => assert_eq!(rt; offered(&face, version, Class::Plain), answer),
            Err(_) => assert!(rt; false),
        }
    }
}

#[test]
fn offers_by_class(rt: HostRuntime) {
    for (rows, class, answer) in [
        ([undefined(1), shown(1)], Class::Plain, Some(1)),
        ([undefined(1), shown(1)], Class::Copy, Some(1)),
        ([undefined(1), shown(1)], Class::Call, Some(2)),
        ([undefined(1), undefined(1)], Class::Call, None),
        // No table of version indexes: hidden or not, whatever the version.
        ([shown(0), hidden(4)], Class::Call, Some(2)),
    ] {
        match object(rt.alloc(), false, &rows) {
            Ok(face) => assert_eq!(rt; offered(&face, Some(b"3"), class), answer),
            Err(_) => assert!(rt; false),
        }
    }
}
