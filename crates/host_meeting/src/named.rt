//! The symbols of files, found by their names.
//!
//! What a look finds in a file goes by the symbols of its name alone, so each look costs a look-up
//! and the symbols of this name, and never a scan of the file's symbols.

ghost use Rattle.std.specs.Prelude.{◌≡◌, ◌++◌, ◌∷◌, [], ℕ, List, IfOk, OnOk, bytes_eq, cond, false, map};
ghost use Rattle.load_model.specs.Offers.{real_syms};
ghost use Rattle.host_meeting.specs.Named.{HasNamed, kept_for, seen_syms};

use crate::files::LibFile;
use crate::offered::first_accepted;
use indexmap::IndexMap;
use load_model::{Class, NoMemory, Sym};
use std::alloc::Global;

/// The file of a library, with its symbols by name, but for that of index 0, which is none.
#[derive(Drop)]
pub struct NamedFile<'a> {
    pub file: LibFile<'a>,
    pub syms: IndexMap<&'a [u8], Vec<&'a Sym>>,
    ghost has_named: { HasNamed syms.entries file.face.now.syms },
}

impl<'a> NamedFile<'a> {
    ghost use Rattle.std.specs.Prelude.{◌≡◌, IfOk, slice_get};
    ghost use Rattle.std.specs.Option.{option_and_then, option_copied};
    ghost use Rattle.load_model.specs.Bindings.{offered_by};
    ghost use Rattle.load_model.specs.Offers.{offer_of};

    /// Takes time in proportion to the symbols of the file.
    fn of(alloc: Global, file: LibFile<'a>) -> Result<NamedFile<'a>, NoMemory>
        ensures { IfOk result (λ named. named.file ≡ file.entry) }
    {
        let syms = by_name(alloc, file.face.syms.as_slice())?;
        Ok(NamedFile { file, syms })
    }

    /// The symbol that a reference by this name, with or without a version, binds to in the file.
    ///
    /// Takes time in proportion to the symbols of this name.
    pub fn offer(&self, name: &'a [u8], version: Option<&[u8]>, class: Class) -> Option<&'a Sym>
        ensures { option_copied result ≡ option_and_then
            (λ i. slice_get self.now.file.face.now.syms i)
            (offer_of (offered_by self.now.file.face.now) name.now (option_copied version.entry)
            class) }
    {
        let versioned = self.file.face.versioned;
        match self.syms.get(&name) {
            Some(same) => first_accepted(same.as_slice(), versioned, name, version, class).copied(),
            None => None,
        }
    }
}

/// The files of libraries, in order.
pub fn named_files<'a>(alloc: Global, files: &[LibFile<'a>]) -> Result<Vec<NamedFile<'a>>, NoMemory>
    ensures { IfOk result (λ named. map (λ n. n.file) named.items ≡ files.now) }
{
    let mut named = Vec::new(alloc);
    for file in files {
        let next = NamedFile::of(alloc, *file)?;
        match named.push(next) {
            Ok(()) => {}
            Err(_) => return Err(NoMemory),
        }
    }
    Ok(named)
}

/// Symbols by their names, but for the first, which is none.
fn by_name<'a>(alloc: Global, syms: &'a [Sym]) -> Result<IndexMap<&'a [u8], Vec<&'a Sym>>, NoMemory>
    ensures { IfOk result (λ kept. HasNamed kept.entries syms.now) }
{
    let mut kept = IndexMap::new(alloc);
    for s in real_syms(syms) {
        keep(alloc, &mut kept, s)?;
    }
    Ok(kept)
}

/// All but the symbol of index 0, which is none.
fn real_syms(syms: &[Sym]) -> &[Sym]
    ensures { result.now ≡ real_syms syms.now }
{
    match syms.split_first() {
        Some((_, later)) => later,
        None => syms,
    }
}

/// Adds a symbol to those of its name.
fn keep<'a>(
    alloc: Global,
    kept: &mut IndexMap<&'a [u8], Vec<&'a Sym>>,
    s: &'a Sym,
) -> Result<(), NoMemory>
    ensures { OnOk result ((q : List ℕ) → kept_for kept.new.entries q
        ≡ kept_for kept.old.entries q ++ cond (bytes_eq s.now.name q) (s.now ∷ []) []) }
{
    let name = s.name.as_bytes();
    let mut same = take(alloc, kept, name)?;
    match same.push(s) {
        Ok(()) => {}
        Err(_) => return Err(NoMemory),
    }
    match kept.insert(name, same) {
        Ok(_) => Ok(()),
        Err(_) => Err(NoMemory),
    }
}

/// Takes the symbols of a name out, so that more of them can be added.
fn take<'a>(
    alloc: Global,
    kept: &mut IndexMap<&'a [u8], Vec<&'a Sym>>,
    name: &'a [u8],
) -> Result<Vec<&'a Sym>, NoMemory>
    ensures taken { IfOk result (λ same.
        seen_syms same.items ≡ kept_for kept.old.entries name.now) }
    ensures others { OnOk result ((q : List ℕ) → bytes_eq q name.now ≡ false
        → kept_for kept.new.entries q ≡ kept_for kept.old.entries q) }
{
    match kept.insert(name, Vec::new(alloc)) {
        Ok(Some(same)) => Ok(same),
        Ok(None) => Ok(Vec::new(alloc)),
        Err(_) => Err(NoMemory),
    }
}
