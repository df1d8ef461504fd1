//! Program headers, dynamic entries and words as bytes, the lowest byte first. The definitions are
//! in `specs/Words.antt`.

ghost use Rattle.std.specs.Prelude.{◌≡◌, ◌++◌, IfOk, OnOk};
ghost use Rattle.byte_view.specs.Dynamic.{entries_bytes, entry_bytes};
ghost use Rattle.byte_view.specs.Numbers.{word_bytes};
ghost use Rattle.elf_rewrite.specs.Words.{header_bytes, table_bytes, word};

use crate::patch::Patch;
use byte_view::{Entry, Segment};
use load_model::{NoMemory, Text};
use std::alloc::Global;

/// A patch that writes a word of two bytes.
#[tactic(auto, unfolding(byte_view::specs::Numbers::word_bytes))]
pub(crate) fn half_patch(alloc: Global, at: usize, value: u16) -> Result<Patch, NoMemory>
    ensures { IfOk result (λ p. p ≡ word 2 at value) }
{
    let bytes = Text::from_bytes(alloc, &value.to_le_bytes())?;
    Ok(Patch { at, bytes })
}

/// The same of four bytes.
#[tactic(auto, unfolding(byte_view::specs::Numbers::word_bytes))]
pub(crate) fn word_patch(alloc: Global, at: usize, value: u32) -> Result<Patch, NoMemory>
    ensures { IfOk result (λ p. p ≡ word 4 at value) }
{
    let bytes = Text::from_bytes(alloc, &value.to_le_bytes())?;
    Ok(Patch { at, bytes })
}

/// The same of eight bytes.
#[tactic(auto, unfolding(byte_view::specs::Numbers::word_bytes))]
pub(crate) fn long_patch(alloc: Global, at: usize, value: u64) -> Result<Patch, NoMemory>
    ensures { IfOk result (λ p. p ≡ word 8 at value) }
{
    let bytes = Text::from_bytes(alloc, &value.to_le_bytes())?;
    Ok(Patch { at, bytes })
}

/// Program headers as bytes.
pub(crate) fn table_bytes(alloc: Global, segments: &[Segment]) -> Result<Text, NoMemory>
    ensures { IfOk result (λ text. text ≡ table_bytes segments.now) }
{
    let mut bytes = Vec::new(alloc);
    for segment in segments {
        push_header(&mut bytes, segment)?;
    }
    Ok(Text::from_vec(bytes))
}

/// Dynamic entries as bytes.
pub(crate) fn entries_bytes(alloc: Global, entries: &[Entry]) -> Result<Text, NoMemory>
    ensures { IfOk result (λ text. text ≡ entries_bytes entries.now) }
{
    let mut bytes = Vec::new(alloc);
    for entry in entries {
        push_entry(&mut bytes, entry)?;
    }
    Ok(Text::from_vec(bytes))
}

#[tactic(auto, unfolding(byte_view::specs::Dynamic::entry_bytes))]
fn push_entry(out: &mut Vec<u8>, entry: &Entry) -> Result<(), NoMemory>
    ensures { OnOk result (out.new.items ≡ out.old.items ++ entry_bytes entry.now) }
{
    push_long(out, entry.tag)?;
    push_long(out, entry.value)
}

#[tactic(auto, unfolding(crate::specs::Words::header_bytes))]
fn push_header(out: &mut Vec<u8>, s: &Segment) -> Result<(), NoMemory>
    ensures { OnOk result (out.new.items ≡ out.old.items ++ header_bytes s.now) }
{
    push_word(out, s.kind)?;
    push_word(out, s.flags)?;
    push_places(out, s)?;
    push_sizes(out, s)
}

fn push_places(out: &mut Vec<u8>, s: &Segment) -> Result<(), NoMemory>
    ensures { OnOk result (out.new.items ≡ out.old.items
        ++ (word_bytes 8 s.now.offset ++ (word_bytes 8 s.now.vaddr ++ word_bytes 8 s.now.paddr))) }
{
    push_long(out, s.offset)?;
    push_long(out, s.vaddr)?;
    push_long(out, s.paddr)
}

fn push_sizes(out: &mut Vec<u8>, s: &Segment) -> Result<(), NoMemory>
    ensures { OnOk result (out.new.items ≡ out.old.items
        ++ (word_bytes 8 s.now.filesz ++ (word_bytes 8 s.now.memsz ++ word_bytes 8 s.now.align))) }
{
    push_long(out, s.filesz)?;
    push_long(out, s.memsz)?;
    push_long(out, s.align)
}

#[tactic(auto, unfolding(byte_view::specs::Numbers::word_bytes))]
fn push_word(out: &mut Vec<u8>, word: u32) -> Result<(), NoMemory>
    ensures { OnOk result (out.new.items ≡ out.old.items ++ word_bytes 4 word) }
{
    out.extend_from_slice(&word.to_le_bytes())?;
    Ok(())
}

#[tactic(auto, unfolding(byte_view::specs::Numbers::word_bytes))]
fn push_long(out: &mut Vec<u8>, word: u64) -> Result<(), NoMemory>
    ensures { OnOk result (out.new.items ≡ out.old.items ++ word_bytes 8 word) }
{
    out.extend_from_slice(&word.to_le_bytes())?;
    Ok(())
}
