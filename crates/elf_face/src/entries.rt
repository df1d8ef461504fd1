//! What the dynamic table says: names, and whether the object is symbolic.
//!
//! System V gABI, Dynamic Section.

ghost use Rattle.std.specs.Prelude.{◌≡◌, IfOk, is_some};
ghost use Rattle.std.specs.Option.{option_copied};
ghost use Rattle.answers.specs.Answers.{TellsBy};
ghost use Rattle.byte_view.specs.Dynamic.{value_of};
ghost use Rattle.byte_view.specs.DynamicFlaws.{has_tag};
ghost use Rattle.byte_view.specs.declared.constants.TheConstants.{DT_VERSYM};
ghost use Rattle.dyn_table.specs.Table.{IsTableOf};
ghost use Rattle.elf_face.specs.Faults.{flaw_of};
ghost use Rattle.load_model.specs.Faces.{bad_place, bad_text_of, has_symbolic_bit, named_text, needs_of, says_symbolic};

use crate::faults::{FaceFault, bad_name};
use crate::texts::{is_text, text_of};
use bitflags::Flags;
use byte_view::Entry;
use byte_view::constants::{DT_FLAGS, DT_NEEDED, DT_SYMBOLIC, DT_VERSYM};
use dyn_table::{Dyn, ObjectFlags, has_tag, value_of};
use load_model::{List, Name, NoMemory};
use std::alloc::Global;

/// Do these flags say that the object is symbolic?
fn has_symbolic_bit(flags: Option<u64>) -> bool
    ensures { result ≡ has_symbolic_bit flags }
{
    match flags {
        Some(flags) => ObjectFlags(flags).intersects(ObjectFlags::SYMBOLIC),
        None => false,
    }
}

/// Are the object's references looked up in itself first?
pub(crate) fn says_symbolic(entries: &[Entry]) -> bool
    ensures { result ≡ says_symbolic entries.now }
{
    has_tag(DT_SYMBOLIC, entries) || has_symbolic_bit(value_of(DT_FLAGS, entries))
}

/// Is there a table of version indexes?
pub(crate) fn has_versions(entries: &[Entry]) -> bool
    ensures { result ≡ is_some (value_of DT_VERSYM entries.now) }
{
    value_of(DT_VERSYM, entries).is_some()
}

/// The text that the first entry with this tag names.
#[tactic(auto, unfolding(load_model::specs::Faces::named_text))]
pub(crate) fn named_text<'a>(table: &Dyn, bytes: &'a [u8], tag: u64) -> Option<&'a [u8]>
    requires { IsTableOf table.now bytes.now }
    ensures { option_copied result ≡ named_text bytes.now tag }
{
    match value_of(tag, table.entries()) {
        Some(at) => Some(text_of(table, bytes, at)),
        None => None,
    }
}

/// The string place of the first entry with this tag whose text is not UTF-8.
fn bad_place(table: &Dyn, bytes: &[u8], tag: u64) -> Option<u64>
    requires { IsTableOf table.now bytes.now }
    ensures { result ≡ bad_place bytes.now tag table.now.entries }
{
    table
        .entries()
        .iter()
        .find(|e| e.tag == tag && !is_text(text_of(table, bytes, e.value)))
        .map(|e| e.value)
}

/// Are the texts that entries with this tag name all UTF-8?
pub(crate) fn check_texts(table: &Dyn, bytes: &[u8], tag: u64) -> Result<(), FaceFault>
    requires { IsTableOf table.now bytes.now }
    ensures { TellsBy flaw_of result (bad_text_of bytes.now tag) }
{
    match bad_place(table, bytes, tag) {
        Some(at) => Err(bad_name(at)),
        None => Ok(()),
    }
}

/// The names of the needed libraries, in order.
#[tactic(auto, unfolding(load_model::specs::Faces::needs_of))]
pub(crate) fn needs_of(alloc: Global, table: &Dyn, bytes: &[u8]) -> Result<List<Name>, NoMemory>
    requires { IsTableOf table.now bytes.now }
    ensures { IfOk result (λ needs. needs ≡ needs_of bytes.now) }
{
    let entries = table.entries();
    let mut needs = List::new(alloc);
    for e in entries {
        if e.tag == DT_NEEDED {
            needs.push(Name::from_bytes(alloc, text_of(table, bytes, e.value))?)?;
        }
    }
    Ok(needs)
}
