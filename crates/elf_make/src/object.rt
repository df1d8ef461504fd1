//! A made file, from its parts.

ghost use Rattle.std.specs.Prelude.{◌≡◌, ◌+◌, ◌++◌, IfOk, OnOk};
ghost use Rattle.byte_view.specs.Dynamic.{entries_bytes};
ghost use Rattle.elf_make.specs.Headers.{file_header, segment_bytes, sections_of, segments_of};
ghost use Rattle.elf_make.specs.Parts.{part_bytes};
ghost use Rattle.elf_make.specs.Object.{file_by, made_file, made_object, object_by};
ghost use Rattle.elf_shape.specs.Versions.{HasFewVersions, made_versions};

use crate::dynamic_table::{dynamic_size, entries_of, push_entries};
use crate::headers::{push_file_header, push_sections, push_segments, segments_of};
use crate::parts::{Parts, Places, object_parts, parts_begin, places_of, push_parts};
use byte_view::Entry;
use elf_shape::Shape;
use elf_shape::strings::{Strings, strings_of};
use elf_shape::symbols::symbols_of;
use elf_shape::versions::{Versions, versions_of};
use load_model::{NoMemory, Text};
use std::alloc::Global;

/// Appends the headers of the file, whose dynamic table has this size.
fn push_headers(
    alloc: Global,
    out: &mut Vec<u8>,
    shape: &Shape,
    parts: &Parts,
    places: &Places,
    size: u64,
) -> Result<(), NoMemory>
    ensures { OnOk result
        (out.new.items
        ≡ out.old.items
        ++ (file_header shape.now (places.now.dynamic + size)
        ++ segment_bytes (segments_of shape.now parts.now places.now size))) }
{
    let end = places.dynamic.checked_add(size).ok_or(NoMemory)?;
    let segments = segments_of(alloc, shape, parts, places, size)?;
    push_file_header(out, shape, end)?;
    push_segments(out, segments.as_slice())
}

/// Appends the parts, the dynamic table and the section headers.
fn push_rest(
    out: &mut Vec<u8>,
    shape: &Shape,
    parts: &Parts,
    places: &Places,
    entries: &[Entry],
) -> Result<(), NoMemory>
    ensures { OnOk result
        (out.new.items
        ≡ out.old.items
        ++ (part_bytes parts.now
        ++ (entries_bytes entries.now ++ sections_of shape.now parts.now places.now))) }
{
    push_parts(out, parts)?;
    push_entries(out, entries)?;
    push_sections(out, shape, parts, places)
}

/// The file with these parts: the headers, the parts, the dynamic table and the section headers.
#[tactic(auto, unfolding(crate::specs::Object::made_file))]
fn file_of(
    alloc: Global,
    shape: &Shape,
    parts: &Parts,
    places: &Places,
    entries: &[Entry],
) -> Result<Text, NoMemory>
    ensures { IfOk result (λ text. text ≡ made_file shape.now parts.now places.now entries.now) }
{
    let size = dynamic_size(entries)?;
    let mut file = Vec::new(alloc);
    push_headers(alloc, &mut file, shape, parts, places, size)?;
    push_rest(&mut file, shape, parts, places, entries)?;
    Ok(Text::from_vec(file))
}

/// The file with these parts, one behind the other.
#[tactic(auto, unfolding(crate::specs::Object::file_by))]
fn file_by(
    alloc: Global,
    shape: &Shape,
    versions: &Versions,
    texts: &Strings,
    parts: &Parts,
) -> Result<Text, NoMemory>
    ensures { IfOk result
        (λ text. text ≡ file_by shape.now versions.now texts.now parts.now) }
{
    let places = places_of(parts_begin(shape), parts)?;
    let entries = entries_of(alloc, shape, versions, texts, parts, &places)?;
    file_of(alloc, shape, parts, &places, entries.as_slice())
}

/// The file of a shape with these versions and these texts.
#[tactic(auto, unfolding(crate::specs::Object::object_by))]
fn object_of(
    alloc: Global,
    shape: &Shape,
    versions: &Versions,
    texts: &Strings,
) -> Result<Text, NoMemory>
    ensures { IfOk result (λ text. text ≡ object_by shape.now versions.now texts.now) }
{
    let symbols = symbols_of(alloc, shape, texts, versions)?;
    let parts = object_parts(alloc, shape, versions, texts, symbols.as_slice())?;
    file_by(alloc, shape, versions, texts, &parts)
}

/// The file of this shape, byte for byte.
///
/// A shape whose sizes pass what their words in the file can say is not made, nor one of more
/// versions than there are indexes: the answer is `NoMemory`.
#[tactic(auto, unfolding(crate::specs::Object::made_object))]
pub fn make_object(alloc: Global, shape: &Shape) -> Result<Text, NoMemory>
    ensures bytes { IfOk result (λ text. text ≡ made_object shape.now) }
    ensures versions { OnOk result (HasFewVersions (made_versions shape.now)) }
{
    let versions = versions_of(alloc, shape)?;
    let texts = strings_of(alloc, shape, &versions)?;
    object_of(alloc, shape, &versions, &texts)
}
