//! What a case sets: files, setting, program and opened names.

ghost use Rattle.std.specs.Prelude.{◌≡◌, IfOk};
ghost use Rattle.byte_view.specs.declared.constants.TheConstants.{EM_X86_64};
ghost use Rattle.load_model.specs.Opening.{IsFew};

use crate::case::Case;
use crate::files::File;
use crate::opening::{FileOpener, Placed};
use crate::symbols::{asks_of, symbols_of};
use byte_view::constants::EM_X86_64;
use case_rows::{Fault, decoded, text_of};
use load_model::{Face, List, Name, Setting};
use path_text::Abs;
use std::alloc::Global;
use toml::Value;

/// What a text begins with whose bytes are hexadecimal digits.
const HEX: &str = "hex:";

/// The opener over the files of a case.
pub fn opener_of(alloc: Global, case: &Case<'_>) -> Result<FileOpener, Fault> {
    let mut opener = FileOpener::new(alloc);
    for file in case.files {
        add_file(alloc, &mut opener, &File::of(file)?)?;
    }
    add_many(alloc, &mut opener, case)?;
    Ok(opener)
}

pub fn setting_of(alloc: Global, case: &Case<'_>) -> Result<Setting, Fault>
    ensures { IfOk result (λ setting. setting.machine ≡ EM_X86_64) }
{
    Ok(Setting {
        machine: EM_X86_64,
        dirs: paths_of(alloc, case.dirs)?,
        lib: name_if_any(alloc, case.lib)?,
        platform: name_if_any(alloc, case.platform)?,
    })
}

/// The path of the program.
pub fn program_of(alloc: Global, case: &Case<'_>) -> Result<Abs, Fault> {
    match (case.program, case.files.first()) {
        (Some(path), _) => path_of(alloc, path),
        (None, Some(file)) => path_of(alloc, File::path_of(file)?),
        (None, None) => Err(Fault::Field("program")),
    }
}

/// The names that texts spell.
pub fn names_of(alloc: Global, texts: &[Value]) -> Result<List<Name>, Fault> {
    let mut names = List::new(alloc);
    for text in texts {
        names.push(name_of(alloc, text_of(text)?)?)?;
    }
    Ok(names)
}

/// The bytes of a text, or those that its digits say.
pub fn name_of(alloc: Global, text: &str) -> Result<Name, Fault> {
    match text.strip_prefix(HEX) {
        Some(digits) => {
            let bytes = decoded(alloc, digits)?;
            Ok(Name::from_bytes(alloc, bytes.as_slice())?)
        }
        None => Ok(Name::from_bytes(alloc, text.as_bytes())?),
    }
}

fn name_if_any(alloc: Global, text: Option<&str>) -> Result<Option<Name>, Fault> {
    match text {
        Some(text) => Ok(Some(name_of(alloc, text)?)),
        None => Ok(None),
    }
}

/// The path that a text spells.
pub fn path_of(alloc: Global, text: &str) -> Result<Abs, Fault> {
    match Abs::read(alloc, text.as_bytes()) {
        Ok(path) => Ok(path),
        Err(_) => Err(Fault::Field("path")),
    }
}

fn paths_of(alloc: Global, texts: &[Value]) -> Result<List<Abs>, Fault> {
    let mut paths = List::new(alloc);
    for text in texts {
        paths.push(path_of(alloc, text_of(text)?)?)?;
    }
    Ok(paths)
}

fn add_file(alloc: Global, opener: &mut FileOpener, file: &File<'_>) -> Result<(), Fault> {
    let face = face_of(alloc, file)?;
    let placed = Placed {
        path: path_of(alloc, file.path)?,
        id: name_of(alloc, file.id)?,
        odd: file.is,
    };
    Ok(opener.add(placed, face)?)
}

/// Adds `/lib64/l1.so` and on.
fn add_many(alloc: Global, opener: &mut FileOpener, case: &Case<'_>) -> Result<(), Fault> {
    for number in 0..case.many {
        let number = number.saturating_add(1);
        let is_last = !case.chained || number == case.many;
        add_library(alloc, opener, number, is_last)?;
    }
    Ok(())
}

/// Adds the library of a number. It needs the next, unless it is the last.
fn add_library(
    alloc: Global,
    opener: &mut FileOpener,
    number: u32,
    is_last: bool,
) -> Result<(), Fault> {
    let path = format!(in alloc; "/lib64/l{number}.so")?;
    let mut face = Face::empty(alloc, EM_X86_64);
    if !is_last {
        let next = numbered(alloc, number.saturating_add(1))?;
        face.needs.push(Name::from_bytes(alloc, next.as_bytes())?)?;
    }
    let placed = Placed {
        path: path_of(alloc, path.as_str())?,
        id: Name::from_bytes(alloc, path.as_bytes())?,
        odd: None,
    };
    Ok(opener.add(placed, face)?)
}

fn numbered(alloc: Global, number: u32) -> Result<String, Fault> {
    Ok(format!(in alloc; "l{number}.so")?)
}

/// What a loader sees of a file.
fn face_of(alloc: Global, file: &File<'_>) -> Result<Face, Fault>
    ensures { IfOk result (λ face. IsFew face) }
{
    let mut face = Face::empty(alloc, EM_X86_64);
    set_names(alloc, &mut face, file)?;
    set_symbols(alloc, &mut face, file)?;
    let most = face.syms.as_slice().len().max(face.asks.as_slice().len());
    if most as u64 >= 1 << 32 {
        return Err(Fault::Field("count"));
    }
    Ok(face)
}

fn set_names(alloc: Global, face: &mut Face, file: &File<'_>) -> Result<(), Fault> {
    face.interp = name_if_any(alloc, file.interp)?;
    face.soname = name_if_any(alloc, file.soname)?;
    face.needs = needs_of(alloc, file)?;
    face.rpath = name_if_any(alloc, file.rpath)?;
    face.runpath = name_if_any(alloc, file.runpath)?;
    Ok(())
}

fn set_symbols(alloc: Global, face: &mut Face, file: &File<'_>) -> Result<(), Fault> {
    face.symbolic = file.symbolic;
    face.versioned = file.versioned;
    face.syms = symbols_of(alloc, file.symbols)?;
    face.defs = names_of(alloc, file.defs)?;
    face.asks = asks_of(alloc, file.asks)?;
    Ok(())
}

fn needs_of(alloc: Global, file: &File<'_>) -> Result<List<Name>, Fault> {
    let mut needs = names_of(alloc, file.needs)?;
    for number in 0..file.fan {
        let name = numbered(alloc, number.saturating_add(1))?;
        needs.push(Name::from_bytes(alloc, name.as_bytes())?)?;
    }
    Ok(needs)
}

/// The lines that a case wants.
pub fn wanted_text(alloc: Global, case: &Case<'_>) -> Result<Vec<u8>, Fault> {
    let mut text = Vec::new(alloc);
    for line in case.wants {
        text.extend_from_slice(text_of(line)?.as_bytes())?;
        text.push(b'\n')?;
    }
    Ok(text)
}
