//! A record is written line by line. Definition: `record_text` of `specs/Grammar.antt`.

ghost use Rattle.std.specs.Prelude.{◌≡◌, ◌∷◌, [], ◌++◌, ◌<◌, IfOk, OnOk, length, map};
ghost use Rattle.std.specs.List.{AllByRecursion, flat_map};
ghost use Rattle.host_record.specs.Canonical.{IsCanonical, IsLookOver, IsVersionOver};
ghost use Rattle.host_record.specs.Grammar.{lib_name_at, library_lines, look_line, lookup_in, record_text, version_line};
ghost use Rattle.load_model.specs.Escaping.{version_text};
ghost use Rattle.host_record.specs.Lines.{answer_field, class_field, ended_line, text_of_lines};
ghost use Rattle.host_record.specs.Said.{lib_names};
ghost use Rattle.host_record.specs.declared.lines.Line.TheVariants.{Ask as AskLine, Interp as InterpLine, Machine as MachineLine, Need as NeedLine, Require as RequireLine};

use crate::records::{Answer, Look, RecLib, RecVersion, Record};
use load_model::{Name, NoMemory, Text, escape_onto};
use path_text::Abs;
use std::alloc::Global;

/// The text of a record.
pub fn write_record(alloc: Global, rec: &Record) -> Result<Text, NoMemory>
    requires { IsCanonical rec.now }
    ensures { IfOk result (λ text. text ≡ record_text rec.now) }
{
    let mut out = Vec::new(alloc);
    let libs = rec.libs.as_slice();
    out.extend_from_slice(b"appdir-host 1\n")?;
    push_machine(alloc, &mut out, rec.machine)?;
    push_interps(&mut out, rec.interps.as_slice())?;
    push_libs(&mut out, libs)?;
    push_versions(&mut out, libs, rec.versions.as_slice())?;
    push_looks(&mut out, libs, rec.looks.as_slice())?;
    out.extend_from_slice(b"end\n")?;
    Ok(Text::from_vec(out))
}

fn push_machine(alloc: Global, out: &mut Vec<u8>, machine: u16) -> Result<(), NoMemory>
    ensures { OnOk result (out.new.items ≡ out.old.items ++ ended_line (MachineLine machine)) }
{
    let line = format!(in alloc; "machine {machine}\n")?;
    out.extend_from_slice(line.as_str().as_bytes())?;
    Ok(())
}

fn push_interps(out: &mut Vec<u8>, paths: &[Abs]) -> Result<(), NoMemory>
    ensures { OnOk result (out.new.items
        ≡ out.old.items ++ text_of_lines (map InterpLine paths.now)) }
{
    for path in paths {
        push_interp(out, path)?;
    }
    Ok(())
}

fn push_interp(out: &mut Vec<u8>, path: &Abs) -> Result<(), NoMemory>
    ensures { OnOk result (out.new.items ≡ out.old.items ++ ended_line (InterpLine path.now)) }
{
    out.extend_from_slice(b"interp ")?;
    escape_onto(out, path.as_str().as_bytes())?;
    out.extend_from_slice(b"\n")?;
    Ok(())
}

fn push_libs(out: &mut Vec<u8>, libs: &[RecLib]) -> Result<(), NoMemory>
    ensures { OnOk result (out.new.items
        ≡ out.old.items ++ text_of_lines (flat_map library_lines libs.now)) }
{
    for lib in libs {
        push_lib(out, lib)?;
    }
    Ok(())
}

/// Adds the line of a library and those of its needs.
fn push_lib(out: &mut Vec<u8>, lib: &RecLib) -> Result<(), NoMemory>
    ensures { OnOk result (out.new.items
        ≡ out.old.items ++ text_of_lines (library_lines lib.now)) }
{
    out.extend_from_slice(b"lib ")?;
    escape_onto(out, lib.name.as_bytes())?;
    out.extend_from_slice(b"\n")?;
    for need in lib.needs.as_slice() {
        push_need(out, need)?;
    }
    Ok(())
}

fn push_need(out: &mut Vec<u8>, name: &Name) -> Result<(), NoMemory>
    ensures { OnOk result (out.new.items ≡ out.old.items ++ ended_line (NeedLine name.now)) }
{
    out.extend_from_slice(b"need ")?;
    escape_onto(out, name.as_bytes())?;
    out.extend_from_slice(b"\n")?;
    Ok(())
}

fn push_versions(
    out: &mut Vec<u8>,
    libs: &[RecLib],
    versions: &[RecVersion],
) -> Result<(), NoMemory>
    requires { AllByRecursion (IsVersionOver libs.now) versions.now }
    ensures { OnOk result (out.new.items
        ≡ out.old.items ++ text_of_lines (map (version_line (lib_names libs.now)) versions.now)) }
{
    for version in versions {
        push_version(out, lib_name(libs, version.lib), version)?;
    }
    Ok(())
}

/// Adds the line of a version of the library of this name.
fn push_version(out: &mut Vec<u8>, lib: &Name, version: &RecVersion) -> Result<(), NoMemory>
    ensures { OnOk result (out.new.items
        ≡ out.old.items ++ ended_line (RequireLine lib.now version.now.version)) }
{
    out.extend_from_slice(b"version ")?;
    escape_onto(out, lib.as_bytes())?;
    out.extend_from_slice(b" ")?;
    escape_onto(out, version.version.as_bytes())?;
    out.extend_from_slice(b"\n")?;
    Ok(())
}

fn push_looks(out: &mut Vec<u8>, libs: &[RecLib], looks: &[Look]) -> Result<(), NoMemory>
    requires { AllByRecursion (IsLookOver libs.now) looks.now }
    ensures { OnOk result (out.new.items
        ≡ out.old.items ++ text_of_lines (map (look_line (lib_names libs.now)) looks.now)) }
{
    for look in looks {
        push_look(out, lib_name(libs, look.lib), look)?;
    }
    Ok(())
}

/// Adds the line of a look in the library of this name.
fn push_look(out: &mut Vec<u8>, lib: &Name, look: &Look) -> Result<(), NoMemory>
    ensures { OnOk result (out.new.items
        ≡ out.old.items ++ ended_line (AskLine (lookup_in lib.now look.now))) }
{
    out.extend_from_slice(b"look ")?;
    escape_onto(out, lib.as_bytes())?;
    out.extend_from_slice(b" ")?;
    escape_onto(out, look.name.as_bytes())?;
    out.extend_from_slice(b" ")?;
    push_version_field(out, &look.version)?;
    out.extend_from_slice(class_field(look.call))?;
    push_answer(out, &look.answer)?;
    out.extend_from_slice(b"\n")?;
    Ok(())
}

/// Adds a version, or `-` for none.
fn push_version_field(out: &mut Vec<u8>, version: &Option<Name>) -> Result<(), NoMemory>
    ensures { OnOk result (out.new.items ≡ out.old.items ++ version_text version.now) }
{
    match version {
        Some(name) => escape_onto(out, name.as_bytes()),
        None => {
            out.extend_from_slice(b"-")?;
            Ok(())
        }
    }
}

/// A class between spaces.
fn class_field(call: bool) -> &'static [u8]
    ensures { result.now ≡ 32 ∷ (class_field call ++ 32 ∷ []) }
{
    if call { b" c " } else { b" p " }
}

fn push_answer(out: &mut Vec<u8>, answer: &Answer) -> Result<(), NoMemory>
    ensures { OnOk result (out.new.items ≡ out.old.items ++ answer_field answer.now) }
{
    match answer {
        Answer::Nothing => out.extend_from_slice(b"none")?,
        Answer::Plain => out.extend_from_slice(b"=-")?,
        Answer::Version(name) => {
            out.extend_from_slice(b"=")?;
            escape_onto(out, name.as_bytes())?;
        }
    }
    Ok(())
}

/// The name of the library of this number.
fn lib_name(libs: &[RecLib], number: u32) -> &Name
    requires { number < length libs.now }
    ensures { result.now ≡ lib_name_at (lib_names libs.now) number }
{
    &libs[number as usize].name
}
