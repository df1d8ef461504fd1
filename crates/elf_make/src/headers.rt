//! The ELF header, the program headers and the section headers of a made file.
//!
//! System V gABI, ELF Header, Program Header and Sections.

ghost use Rattle.std.specs.Prelude.{[], ◌∷◌, ◌≡◌, ◌+◌, ◌++◌, OnOk, IfOk};
ghost use Rattle.elf_shape.specs.Bytes.{longs, words};
ghost use Rattle.elf_make.specs.Headers.{interp_segments, kind_words, table_words, file_header, segment, page_of, segments_of, segment_bytes, section_headers, sections_of};

use crate::parts::{Parts, Places, segment_count};
use byte_view::Segment;
use byte_view::constants::{
    EHDR_SIZE, ET_DYN, EV_CURRENT, PF_R, PF_W, PHDR_SIZE, PT_DYNAMIC, PT_INTERP, PT_LOAD, PT_PHDR,
    SHDR_SIZE, SHT_DYNSYM, SYM_SIZE,
};
use elf_shape::Shape;
use elf_shape::numbers::{push_bytes, push_halves, push_longs, push_words};
use load_model::{List, NoMemory};
use std::alloc::Global;

/// The AArch64 machine, whose pages may have 65,536 bytes.
const EM_AARCH64: u16 = 183;

/// A shared object of 64-bit words, the lowest byte first, version 1.
const IDENT: [u8; 16] = [0x7f, 0x45, 0x4c, 0x46, 2, 1, 1, 0, 0, 0, 0, 0, 0, 0, 0, 0];

/// Appends what the file is: `e_ident`, `e_type`, `e_machine`, `e_version`.
#[tactic(auto, unfolding(crate::specs::Headers::kind_words))]
fn push_kind(out: &mut Vec<u8>, machine: u16) -> Result<(), NoMemory>
    ensures { OnOk result (out.new.items ≡ out.old.items ++ kind_words machine) }
{
    push_bytes(out, &IDENT)?;
    push_halves(out, &[ET_DYN, machine])?;
    push_words(out, &[EV_CURRENT as u32])
}

/// Appends where the header tables are, and the sizes and the numbers of their headers.
#[tactic(auto, unfolding(crate::specs::Headers::table_words))]
fn push_tables(
    out: &mut Vec<u8>,
    segments: u16,
    place: u64,
    size: u16,
    sections: u16,
) -> Result<(), NoMemory>
    ensures { OnOk result
        (out.new.items ≡ out.old.items ++ table_words segments place size sections) }
{
    push_longs(out, &[0, EHDR_SIZE as u64, place])?;
    push_words(out, &[0])?;
    push_halves(out, &[EHDR_SIZE, PHDR_SIZE, segments, size, sections, 0])
}

/// Appends the ELF header of a file whose section headers stand at a place, where it has any.
#[tactic(auto, unfolding(crate::specs::Headers::file_header))]
pub(crate) fn push_file_header(out: &mut Vec<u8>, shape: &Shape, place: u64) -> Result<(), NoMemory>
    ensures { OnOk result (out.new.items ≡ out.old.items ++ file_header shape.now place) }
{
    let segments = segment_count(shape);
    push_kind(out, shape.machine)?;
    if shape.sections {
        push_tables(out, segments, place, SHDR_SIZE, 2)
    } else {
        push_tables(out, segments, 0, 0, 0)
    }
}

/// A segment that is a part of the file.
fn segment(kind: u32, flags: u32, place: u64, size: u64, align: u64) -> Segment
    ensures { result ≡ segment kind flags place size 0 align }
{
    Segment {
        kind,
        flags,
        offset: place,
        vaddr: place,
        paddr: place,
        filesz: size,
        memsz: size,
        align,
    }
}

fn page_of(machine: u16) -> u64
    ensures { result ≡ page_of machine }
{
    if machine == EM_AARCH64 { 65_536 } else { 4_096 }
}

/// What is loaded: the file up to `end`, and `zero` bytes behind it in memory.
fn load_segment(end: u64, zero: u64, align: u64) -> Result<Segment, NoMemory>
    ensures { IfOk result (λ load. load ≡ segment PT_LOAD (PF_R + PF_W) 0 end zero align) }
{
    let memsz = end.checked_add(zero).ok_or(NoMemory)?;
    Ok(Segment {
        memsz,
        ..segment(PT_LOAD, PF_R + PF_W, 0, end, align)
    })
}

/// Appends those of the header table and the interpreter, where there is one.
fn push_interp(
    out: &mut List<Segment>,
    shape: &Shape,
    parts: &Parts,
    places: &Places,
) -> Result<(), NoMemory>
    ensures { OnOk result
        (out.new ≡ out.old ++ interp_segments shape.now parts.now places.now) }
{
    if shape.interp.is_none() {
        return Ok(());
    }
    let table_size = PHDR_SIZE as u64 * 4;
    out.push(segment(PT_PHDR, PF_R, EHDR_SIZE as u64, table_size, 8))?;
    let size = parts.interp.as_bytes().len() as u64;
    out.push(segment(PT_INTERP, PF_R, places.interp, size, 1))
}

/// Appends what is loaded up to the end of the dynamic table, which stands at a place and has this
/// size.
fn push_load(out: &mut List<Segment>, shape: &Shape, place: u64, size: u64) -> Result<(), NoMemory>
    ensures { OnOk result
        (out.new
        ≡ out.old
        ++ segment PT_LOAD (PF_R + PF_W) 0 (place + size) shape.now.zero (page_of shape.now.machine)
        ∷ []) }
{
    let end = place.checked_add(size).ok_or(NoMemory)?;
    let load = load_segment(end, shape.zero, page_of(shape.machine))?;
    out.push(load)
}

/// The program headers.
#[tactic(auto, unfolding(crate::specs::Headers::segments_of))]
pub(crate) fn segments_of(
    alloc: Global,
    shape: &Shape,
    parts: &Parts,
    places: &Places,
    dynamic_size: u64,
) -> Result<List<Segment>, NoMemory>
    ensures { IfOk result
        (λ segments. segments ≡ segments_of shape.now parts.now places.now dynamic_size) }
{
    let mut segments = List::new(alloc);
    push_interp(&mut segments, shape, parts, places)?;
    push_load(&mut segments, shape, places.dynamic, dynamic_size)?;
    segments.push(segment(PT_DYNAMIC, PF_R + PF_W, places.dynamic, dynamic_size, 8))?;
    Ok(segments)
}

/// Appends a program header.
fn push_segment(out: &mut Vec<u8>, s: &Segment) -> Result<(), NoMemory>
    ensures { OnOk result
        (out.new.items
        ≡ out.old.items
        ++ (words (s.now.kind ∷ s.now.flags ∷ [])
        ++ longs (s.now.offset ∷ s.now.vaddr ∷ s.now.paddr ∷ s.now.filesz ∷ s.now.memsz
        ∷ s.now.align ∷ []))) }
{
    push_words(out, &[s.kind, s.flags])?;
    push_longs(
        out,
        &[s.offset, s.vaddr, s.paddr, s.filesz, s.memsz, s.align],
    )
}

/// Appends the program headers.
#[tactic(auto, unfolding(crate::specs::Headers::segment_bytes))]
pub(crate) fn push_segments(out: &mut Vec<u8>, segments: &[Segment]) -> Result<(), NoMemory>
    ensures { OnOk result (out.new.items ≡ out.old.items ++ segment_bytes segments.now) }
{
    for s in segments {
        push_segment(out, s)?;
    }
    Ok(())
}

/// Appends the null section, and what the next one is.
fn push_section_kind(out: &mut Vec<u8>) -> Result<(), NoMemory>
    ensures { OnOk result
        (out.new.items
        ≡ out.old.items
        ++ (longs (0 ∷ 0 ∷ 0 ∷ 0 ∷ 0 ∷ 0 ∷ 0 ∷ 0 ∷ []) ++ words (0 ∷ SHT_DYNSYM ∷ []))) }
{
    push_longs(out, &[0, 0, 0, 0, 0, 0, 0, 0])?;
    push_words(out, &[0, SHT_DYNSYM])
}

/// Appends where the symbols stand, and how large they are.
fn push_section_place(out: &mut Vec<u8>, place: u64, size: u64) -> Result<(), NoMemory>
    ensures { OnOk result
        (out.new.items
        ≡ out.old.items
        ++ (longs (0 ∷ place ∷ place ∷ size ∷ [])
        ++ (words (0 ∷ 1 ∷ []) ++ longs (0 ∷ SYM_SIZE ∷ [])))) }
{
    push_longs(out, &[0, place, place, size])?;
    push_words(out, &[0, 1])?;
    push_longs(out, &[0, SYM_SIZE])
}

/// Appends the null section and that of the symbols, which stand at a place.
#[tactic(auto, unfolding(crate::specs::Headers::section_headers))]
fn push_section_headers(out: &mut Vec<u8>, place: u64, size: u64) -> Result<(), NoMemory>
    ensures { OnOk result (out.new.items ≡ out.old.items ++ section_headers place size) }
{
    push_section_kind(out)?;
    push_section_place(out, place, size)
}

/// Appends the section headers, where they are wanted.
#[tactic(auto, unfolding(crate::specs::Headers::sections_of))]
pub(crate) fn push_sections(
    out: &mut Vec<u8>,
    shape: &Shape,
    parts: &Parts,
    places: &Places,
) -> Result<(), NoMemory>
    ensures { OnOk result
        (out.new.items ≡ out.old.items ++ sections_of shape.now parts.now places.now) }
{
    if shape.sections {
        push_section_headers(out, places.symbols, parts.symbols.as_bytes().len() as u64)?;
    }
    Ok(())
}
