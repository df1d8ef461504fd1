//! The tags of the dynamic table: which are refused, which stand once, and which must be there.

ghost use Rattle.std.specs.Prelude.{◌≡◌, []};
ghost use Rattle.answers.specs.Answers.{TellsBy};
ghost use Rattle.byte_view.specs.Dynamic.{value_of};
ghost use Rattle.byte_view.specs.DynamicFlaws.{entry_flaw, has_tag, is_refused, is_single, missing_flaw, tags_flaw};
ghost use Rattle.dyn_table.specs.Faults.{dyn_fault_flaw};

use crate::faults::{DynFault, flawed};
use crate::flags::StateFlags;
use byte_view::Entry;
use byte_view::constants::{
    DT_AUDIT, DT_AUXILIARY, DT_DEPAUDIT, DT_FILTER, DT_FLAGS, DT_FLAGS_1, DT_GNU_HASH, DT_HASH,
    DT_RPATH, DT_RUNPATH, DT_SONAME, DT_STRSZ, DT_STRTAB, DT_SYMBOLIC, DT_SYMENT, DT_SYMTAB,
    DT_VERDEF, DT_VERDEFNUM, DT_VERNEED, DT_VERNEEDNUM, DT_VERSYM,
};
use byte_view::flaws::{MISSING_TAG, REPEATED, TAG_REFUSED};

/// The value of the first entry with this tag.
pub fn value_of(tag: u64, entries: &[Entry]) -> Option<u64>
    ensures { result ≡ value_of tag entries.now }
{
    entries.iter().find(|e| e.tag == tag).map(|e| e.value)
}

/// Whether an entry has this tag.
pub fn has_tag(tag: u64, entries: &[Entry]) -> bool
    ensures { result ≡ has_tag tag entries.now }
{
    entries.iter().any(|e| e.tag == tag)
}

/// Whether it changes how libraries are found or bound, in ways that are not modelled.
fn is_refused(e: &Entry) -> bool
    ensures { result ≡ is_refused e.now }
{
    match e.tag {
        DT_DEPAUDIT | DT_AUDIT | DT_AUXILIARY | DT_FILTER => true,
        DT_FLAGS_1 => StateFlags(e.value).is_refused(),
        _ => false,
    }
}

/// Whether the tag stands at most once.
fn is_single(tag: u64) -> bool
    ensures { result ≡ is_single tag }
{
    matches!(
        tag,
        DT_HASH
            | DT_STRTAB
            | DT_SYMTAB
            | DT_STRSZ
            | DT_SYMENT
            | DT_SONAME
            | DT_RPATH
            | DT_SYMBOLIC
            | DT_RUNPATH
            | DT_FLAGS
            | DT_GNU_HASH
            | DT_VERSYM
            | DT_FLAGS_1
            | DT_VERDEF
            | DT_VERDEFNUM
            | DT_VERNEED
            | DT_VERNEEDNUM
    )
}

/// Whether no entry is refused, and each that stands at most once does.
///
/// Each single tag is looked for once among the entries before it, and there are seventeen of them.
#[tactic(auto, unfolding(byte_view::specs::DynamicFlaws::entry_flaw))]
fn check_entries(entries: &[Entry]) -> Result<(), DynFault>
    ensures { TellsBy dyn_fault_flaw result (entry_flaw [] entries.now) }
{
    for (i, e) in entries.iter().enumerate() {
        if is_refused(e) {
            return Err(flawed(TAG_REFUSED, e.tag));
        }
        if is_single(e.tag) && has_tag(e.tag, &entries[..i]) {
            return Err(flawed(REPEATED, e.tag));
        }
    }
    Ok(())
}

/// Whether the tags are there that each table has, and those that others ask for.
#[tactic(auto, unfolding(byte_view::specs::DynamicFlaws::missing_flaw))]
fn check_missing(entries: &[Entry]) -> Result<(), DynFault>
    ensures { TellsBy dyn_fault_flaw result (missing_flaw entries.now) }
{
    if !has_tag(DT_STRTAB, entries) {
        return Err(flawed(MISSING_TAG, DT_STRTAB));
    }
    if !has_tag(DT_SYMTAB, entries) {
        return Err(flawed(MISSING_TAG, DT_SYMTAB));
    }
    if !has_tag(DT_STRSZ, entries) {
        return Err(flawed(MISSING_TAG, DT_STRSZ));
    }
    if !has_tag(DT_SYMENT, entries) {
        return Err(flawed(MISSING_TAG, DT_SYMENT));
    }
    if has_tag(DT_VERDEF, entries) && !has_tag(DT_VERDEFNUM, entries) {
        return Err(flawed(MISSING_TAG, DT_VERDEFNUM));
    }
    if has_tag(DT_VERNEED, entries) && !has_tag(DT_VERNEEDNUM, entries) {
        return Err(flawed(MISSING_TAG, DT_VERNEEDNUM));
    }
    Ok(())
}

/// Whether the tags are such that the table can be read.
#[tactic(auto, unfolding(byte_view::specs::DynamicFlaws::tags_flaw))]
pub(crate) fn check_tags(entries: &[Entry]) -> Result<(), DynFault>
    ensures { TellsBy dyn_fault_flaw result (tags_flaw entries.now) }
{
    check_entries(entries)?;
    check_missing(entries)
}
