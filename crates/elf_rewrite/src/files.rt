//! The words that name files of which versions are needed.
//!
//! Linux Standard Base, Symbol Versioning; the definition is `file_patches` in
//! `specs/Rewriting.antt`.

ghost use Rattle.std.specs.Prelude.{◌≡◌, ◌<◌, ◌++◌, IfOk, OnOk, Some, length, map};
ghost use Rattle.std.specs.List.{enumerate_from, flat_map};
ghost use Rattle.strtab_grow.specs.Growth.{size_of};
ghost use Rattle.elf_rewrite.specs.Rewriting.{ask_file_in, file_patch};
ghost use Rattle.strtab_grow.specs.declared.texts.TheConstants.{TABLE_LIMIT};

use crate::patch::Patch;
use crate::places::new_place;
use crate::words::word_patch;
use load_model::{Ask, List, Name, NoMemory};
use std::alloc::Global;
use strtab_grow::Grown;
use version_tables::Versions;

/// Adds a patch for each need whose file changes, at the place of its word. `needs` are the numbers
/// of the needs that are asked, `asks` what is asked of them, and `files` their new files.
pub(crate) fn push_files(
    alloc: Global,
    patches: &mut List<Patch>,
    grown: &Grown,
    versions: &Versions,
    files: &[Name],
) -> Result<(), NoMemory>
    requires small { size_of grown.now < TABLE_LIMIT }
    requires asks { length versions.now.ask_needs ≡ length versions.now.asks }
    requires files { length versions.now.ask_needs ≡ length files.now }
    ensures { OnOk result (patches.new ≡ patches.old ++ flat_map
        (λ p. file_patch grown.now p.1 (ask_file_in versions.now.ask_needs
        (map (λ a. a.file) versions.now.asks) files.now p.0))
        (enumerate_from 0 versions.now.file_words)) }
{
    let words = versions.file_words();
    let needs = versions.ask_needs();
    let asks = versions.asks();
    for k in 0..words.len() {
        push_file(alloc, patches, grown, words[k], needs, asks, files, k)?;
    }
    Ok(())
}

/// Adds the patch of one need, by its first ask.
fn push_file(
    alloc: Global,
    patches: &mut List<Patch>,
    grown: &Grown,
    at: u64,
    needs: &[u32],
    asks: &[Ask],
    files: &[Name],
    k: usize,
) -> Result<(), NoMemory>
    requires small { size_of grown.now < TABLE_LIMIT }
    requires asks { length needs.now ≡ length asks.now }
    requires files { length needs.now ≡ length files.now }
    ensures { OnOk result (patches.new ≡ patches.old ++ file_patch grown.now at
        (ask_file_in needs.now (map (λ a. a.file) asks.now) files.now k)) }
{
    for i in 0..needs.len() {
        let need = needs[i] as usize;
        let ask = &asks[i];
        let file = &files[i];
        if need == k {
            return push_changed(alloc, patches, grown, at, ask.file.as_bytes(), file);
        }
    }
    Ok(())
}

/// Adds a patch that names the new file, if it is not the old one.
#[tactic(auto, using(crate::proofs::FileSteps::place_small))]
fn push_changed(
    alloc: Global,
    patches: &mut List<Patch>,
    grown: &Grown,
    at: u64,
    old: &[u8],
    new: &Name,
) -> Result<(), NoMemory>
    requires { size_of grown.now < TABLE_LIMIT }
    ensures { OnOk result (patches.new ≡ patches.old ++ file_patch grown.now at (Some (
      old.now,
      new.now,
    ))) }
{
    if old == new.as_bytes() {
        return Ok(());
    }
    let place = new_place(grown, new.as_bytes());
    patches.push(word_patch(alloc, at as usize, place as u32)?)
}
