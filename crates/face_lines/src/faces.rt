//! What a loader sees in files, as lines.

use byte_view::{Flaw, Told, flaw_name, numbers_told};
use case_rows::{Fault, text_of};
use elf_face::{flaw_of, read_face};
use load_model::{Ask, Face, Name, Sym, Ver, escape};
use std::alloc::Global;
use toml::Value;

/// The lines of the face of a file, or the line of its flaw.
pub fn told_text(alloc: Global, bytes: &[u8]) -> Result<Vec<u8>, Fault> {
    match read_face(alloc, bytes) {
        Ok(face) => face_text(alloc, &face),
        Err(fault) => match flaw_of(&fault) {
            Some(flaw) => flaw_text(alloc, &flaw),
            None => Err(Fault::NoMemory),
        },
    }
}

/// Lines, each with its end.
pub fn lines_text(alloc: Global, lines: &[Value]) -> Result<Vec<u8>, Fault> {
    let mut text = Vec::new(alloc);
    for line in lines {
        push_line(&mut text, text_of(line)?.as_bytes())?;
    }
    Ok(text)
}

/// Adds a line and its end.
pub fn push_line(text: &mut Vec<u8>, line: &[u8]) -> Result<(), Fault> {
    text.extend_from_slice(line)?;
    text.push(b'\n')?;
    Ok(())
}

/// The name of the flaw, and the numbers that it tells.
fn flaw_text(alloc: Global, flaw: &Flaw) -> Result<Vec<u8>, Fault> {
    let Flaw { code, a, b } = *flaw;
    let numbers = match numbers_told(code) {
        Told::Nothing => format!(in alloc; "\n")?,
        Told::One => format!(in alloc; " {a}\n")?,
        Told::Two => format!(in alloc; " {a} {b}\n")?,
    };
    let mut text = Vec::from_slice(alloc, flaw_name(code).unwrap_or(b"-"))?;
    text.extend_from_slice(numbers.as_bytes())?;
    Ok(text)
}

/// The first line has the interpreter, the soname, the RPATH and the RUNPATH, each `-` where it is
/// absent, the machine, and whether it is symbolic and has version indexes. Then come its needs,
/// its definitions, a line for each ask, and a line for each symbol.
fn face_text(alloc: Global, face: &Face) -> Result<Vec<u8>, Fault> {
    let mut text = Vec::new(alloc);
    push_word(alloc, &mut text, &face.interp)?;
    push_word(alloc, &mut text, &face.soname)?;
    push_word(alloc, &mut text, &face.rpath)?;
    push_word(alloc, &mut text, &face.runpath)?;
    let (machine, symbolic, versioned) = (face.machine, face.symbolic, face.versioned);
    let line = format!(in alloc; "{machine} {symbolic} {versioned}\nneeds")?;
    text.extend_from_slice(line.as_bytes())?;
    push_names(alloc, &mut text, face.needs.as_slice())?;
    text.extend_from_slice(b"\ndefines")?;
    push_names(alloc, &mut text, face.defs.as_slice())?;
    text.push(b'\n')?;
    push_asks(alloc, &mut text, face.asks.as_slice())?;
    push_symbols(alloc, &mut text, face.syms.as_slice())?;
    Ok(text)
}

/// Adds a word and a space; `-` where there is none.
fn push_word(alloc: Global, text: &mut Vec<u8>, word: &Option<Name>) -> Result<(), Fault> {
    match word {
        Some(word) => push_name(alloc, text, word)?,
        None => text.push(b'-')?,
    }
    text.push(b' ')?;
    Ok(())
}

fn push_name(alloc: Global, text: &mut Vec<u8>, name: &Name) -> Result<(), Fault> {
    let escaped = escape(alloc, name.as_bytes())?;
    text.extend_from_slice(escaped.as_bytes())?;
    Ok(())
}

/// Adds names, with a space before each.
fn push_names(alloc: Global, text: &mut Vec<u8>, names: &[Name]) -> Result<(), Fault> {
    for name in names {
        text.push(b' ')?;
        push_name(alloc, text, name)?;
    }
    Ok(())
}

/// Adds a line for each ask: the file, the version, and `weak`.
fn push_asks(alloc: Global, text: &mut Vec<u8>, asks: &[Ask]) -> Result<(), Fault> {
    for ask in asks {
        push_name(alloc, text, &ask.file)?;
        text.push(b' ')?;
        push_name(alloc, text, &ask.name)?;
        push_line(text, if ask.weak { b" weak" } else { b"" })?;
    }
    Ok(())
}

fn push_symbols(alloc: Global, text: &mut Vec<u8>, syms: &[Sym]) -> Result<(), Fault> {
    for sym in syms {
        push_symbol(alloc, text, sym)?;
    }
    Ok(())
}

/// Adds a line of a symbol: its name and version, whether it is hidden, defined and has a value,
/// and its binding, type and visibility.
fn push_symbol(alloc: Global, text: &mut Vec<u8>, sym: &Sym) -> Result<(), Fault> {
    push_name(alloc, text, &sym.name)?;
    text.push(b' ')?;
    push_version(alloc, text, &sym.version)?;
    let hidden = if sym.hidden { "hidden" } else { "shown" };
    let defined = if sym.defined { "defined" } else { "undefined" };
    let set = if sym.value_set { "set" } else { "unset" };
    let (binding, kind, visibility) = (sym.binding, sym.kind, sym.visibility);
    let rest = format!(in alloc; " {hidden} {defined} {set} {binding} {kind} {visibility}")?;
    push_line(text, rest.as_bytes())
}

/// Adds the version of a symbol: its index, where that is 0 or 1, or its name and index.
fn push_version(alloc: Global, text: &mut Vec<u8>, version: &Ver) -> Result<(), Fault> {
    match version {
        Ver::Local => text.push(b'0')?,
        Ver::Global => text.push(b'1')?,
        Ver::Named { index, name } => {
            push_name(alloc, text, name)?;
            text.extend_from_slice(format!(in alloc; "@{index}")?.as_bytes())?;
        }
    }
    Ok(())
}
