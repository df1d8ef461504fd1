//! The parts of a made file between its headers and its dynamic table, and where they stand.

ghost use Rattle.std.specs.Prelude.{◌≡◌, ◌+◌, ◌++◌, length, OnOk, IfOk};
ghost use Rattle.elf_make.specs.HashTables.{made_sysv_table, made_gnu_table};
ghost use Rattle.elf_shape.specs.Symbols.{plain_imports, symbol_table as symbol_words, version_indexes as version_words};
ghost use Rattle.elf_shape.specs.Texts.{string_table};
ghost use Rattle.elf_make.specs.VersionTables.{verdef_of, verneed_of};
ghost use Rattle.elf_shape.specs.Versions.{has_version_indexes};
ghost use Rattle.elf_make.specs.Parts.{after, wanted, made_interp, made_parts, segment_count, parts_begin, places_of, symbol_parts, version_parts, part_bytes};

use crate::hash_tables::{gnu_table, sysv_table};
use crate::version_tables::{verdef_of, verneed_of};
use byte_view::constants::{EHDR_SIZE, PHDR_SIZE};
use elf_shape::Shape;
use elf_shape::numbers::{gap, push_bytes, push_padded};
use elf_shape::strings::Strings;
use elf_shape::symbols::{Symbol, count_of, count_plain, symbol_table, version_indexes};
use elf_shape::versions::Versions;
use load_model::{Name, NoMemory, Text};
use std::alloc::Global;

/// The parts. One that is not wanted is empty.
#[derive(Drop)]
pub(crate) struct Parts {
    pub(crate) interp: Text,
    pub(crate) strings: Text,
    pub(crate) symbols: Text,
    pub(crate) sysv: Text,
    pub(crate) gnu: Text,
    pub(crate) versym: Text,
    pub(crate) verdef: Text,
    pub(crate) verneed: Text,
}

/// Where the parts and the dynamic table stand in the file, and in memory.
#[derive(Clone, Copy)]
pub(crate) struct Places {
    pub(crate) interp: u64,
    pub(crate) strings: u64,
    pub(crate) symbols: u64,
    pub(crate) sysv: u64,
    pub(crate) gnu: u64,
    pub(crate) versym: u64,
    pub(crate) verdef: u64,
    pub(crate) verneed: u64,
    pub(crate) dynamic: u64,
}

/// The interpreter and a zero, where there is one.
fn interp_of(alloc: Global, interp: &Option<Name>) -> Result<Text, NoMemory>
    ensures { IfOk result (λ part. part ≡ made_interp interp.now) }
{
    let mut part = Vec::new(alloc);
    if let Some(path) = interp {
        push_bytes(&mut part, path.as_bytes())?;
        push_bytes(&mut part, &[0])?;
    }
    Ok(Text::from_vec(part))
}

/// The System V hash table, where it is wanted.
fn sysv_of(alloc: Global, shape: &Shape, symbols: &[Symbol]) -> Result<Text, NoMemory>
    ensures { IfOk result
        (λ part. part ≡ wanted shape.now.sysv (made_sysv_table (length symbols.now))) }
{
    if shape.sysv {
        sysv_table(alloc, count_of(symbols.len())?)
    } else {
        Ok(Text::from_vec(Vec::new(alloc)))
    }
}

/// The GNU hash table, where it is wanted: it lists the symbols behind the imports without a value.
fn gnu_of(alloc: Global, shape: &Shape, symbols: &[Symbol]) -> Result<Text, NoMemory>
    ensures { IfOk result
        (λ part. part
        ≡ wanted shape.now.gnu
        (made_gnu_table (1 + length (plain_imports shape.now)) symbols.now)) }
{
    if shape.gnu {
        let plain = count_of(count_plain(shape))?;
        gnu_table(alloc, plain.checked_add(1).ok_or(NoMemory)?, symbols)
    } else {
        Ok(Text::from_vec(Vec::new(alloc)))
    }
}

/// The version indexes, where there are versions.
fn versym_of(alloc: Global, versions: &Versions, symbols: &[Symbol]) -> Result<Text, NoMemory>
    ensures { IfOk result
        (λ part. part ≡ wanted (has_version_indexes versions.now) (version_words symbols.now)) }
{
    if versions.is_versioned() {
        version_indexes(alloc, symbols)
    } else {
        Ok(Text::from_vec(Vec::new(alloc)))
    }
}

/// The parts that each file has.
#[derive(Drop)]
struct TableParts {
    interp: Text,
    strings: Text,
    symbols: Text,
}

/// Makes them.
fn table_parts(
    alloc: Global,
    shape: &Shape,
    texts: &Strings,
    symbols: &[Symbol],
) -> Result<TableParts, NoMemory>
    ensures interp { IfOk result (λ p. p.interp ≡ made_interp shape.now.interp) }
    ensures strings { IfOk result (λ p. p.strings ≡ string_table texts.now) }
    ensures symbols { IfOk result (λ p. p.symbols ≡ symbol_words symbols.now) }
{
    let interp = interp_of(alloc, &shape.interp)?;
    let strings = texts.table(alloc)?;
    let symbols = symbol_table(alloc, symbols)?;
    Ok(TableParts {
        interp,
        strings,
        symbols,
    })
}

/// The hash tables.
#[derive(Drop)]
struct HashParts {
    sysv: Text,
    gnu: Text,
}

/// Makes them.
fn hash_parts(alloc: Global, shape: &Shape, symbols: &[Symbol]) -> Result<HashParts, NoMemory>
    ensures sysv { IfOk result
        (λ p. p.sysv ≡ wanted shape.now.sysv (made_sysv_table (length symbols.now))) }
    ensures gnu { IfOk result
        (λ p. p.gnu
        ≡ wanted shape.now.gnu
        (made_gnu_table (1 + length (plain_imports shape.now)) symbols.now)) }
{
    let sysv = sysv_of(alloc, shape, symbols)?;
    let gnu = gnu_of(alloc, shape, symbols)?;
    Ok(HashParts { sysv, gnu })
}

/// The tables of versions.
#[derive(Drop)]
struct VersionParts {
    versym: Text,
    verdef: Text,
    verneed: Text,
}

/// Makes them. Where the file has a name of its own, that is `soname`.
fn records_of(
    alloc: Global,
    soname: &Option<Name>,
    versions: &Versions,
    texts: &Strings,
    symbols: &[Symbol],
) -> Result<VersionParts, NoMemory>
    ensures versym { IfOk result
        (λ p. p.versym ≡ wanted (has_version_indexes versions.now) (version_words symbols.now)) }
    ensures verdef { IfOk result
        (λ p. p.verdef ≡ verdef_of texts.now soname.now versions.now.definitions) }
    ensures verneed { IfOk result (λ p. p.verneed ≡ verneed_of texts.now versions.now) }
{
    let versym = versym_of(alloc, versions, symbols)?;
    let verdef = verdef_of(alloc, texts, soname, versions.definitions.as_slice())?;
    let verneed = verneed_of(alloc, texts, versions)?;
    Ok(VersionParts {
        versym,
        verdef,
        verneed,
    })
}

/// The parts of a file.
#[tactic(auto, unfolding(crate::specs::Parts::made_parts))]
pub(crate) fn object_parts(
    alloc: Global,
    shape: &Shape,
    versions: &Versions,
    texts: &Strings,
    symbols: &[Symbol],
) -> Result<Parts, NoMemory>
    ensures { IfOk result
        (λ parts. parts ≡ made_parts shape.now versions.now texts.now symbols.now) }
{
    let tables = table_parts(alloc, shape, texts, symbols)?;
    let hashes = hash_parts(alloc, shape, symbols)?;
    let records = records_of(alloc, &shape.soname, versions, texts, symbols)?;
    Ok(Parts {
        interp: tables.interp,
        strings: tables.strings,
        symbols: tables.symbols,
        sysv: hashes.sysv,
        gnu: hashes.gnu,
        versym: records.versym,
        verdef: records.verdef,
        verneed: records.verneed,
    })
}

/// How many program headers there are.
pub(crate) fn segment_count(shape: &Shape) -> u16
    ensures { result ≡ segment_count shape.now }
{
    if shape.interp.is_some() { 4 } else { 2 }
}

/// Where the parts begin, behind the ELF header and the program headers.
pub(crate) fn parts_begin(shape: &Shape) -> u64
    ensures { result ≡ parts_begin shape.now }
{
    EHDR_SIZE as u64 + PHDR_SIZE as u64 * segment_count(shape) as u64
}

/// Where the parts stand, the first of them at `begin`.
#[tactic(auto, unfolding(crate::specs::Parts::places_of))]
pub(crate) fn places_of(begin: u64, parts: &Parts) -> Result<Places, NoMemory>
    ensures { IfOk result (λ places. places ≡ places_of begin parts.now) }
{
    let strings = after(begin, parts.interp.as_bytes())?;
    let symbols = after(strings, parts.strings.as_bytes())?;
    let sysv = after(symbols, parts.symbols.as_bytes())?;
    let gnu = after(sysv, parts.sysv.as_bytes())?;
    let versym = after(gnu, parts.gnu.as_bytes())?;
    let verdef = after(versym, parts.versym.as_bytes())?;
    let verneed = after(verdef, parts.verdef.as_bytes())?;
    let dynamic = after(verneed, parts.verneed.as_bytes())?;
    Ok(Places {
        interp: begin,
        strings,
        symbols,
        sysv,
        gnu,
        versym,
        verdef,
        verneed,
        dynamic,
    })
}

/// Appends the interpreter, the strings, the symbols and their hash tables, each filled up.
#[tactic(auto, unfolding(crate::specs::Parts::symbol_parts))]
fn push_symbol_parts(out: &mut Vec<u8>, parts: &Parts) -> Result<(), NoMemory>
    ensures { OnOk result (out.new.items ≡ out.old.items ++ symbol_parts parts.now) }
{
    push_padded(out, parts.interp.as_bytes())?;
    push_padded(out, parts.strings.as_bytes())?;
    push_padded(out, parts.symbols.as_bytes())?;
    push_padded(out, parts.sysv.as_bytes())?;
    push_padded(out, parts.gnu.as_bytes())
}

/// Appends the tables of versions, each filled up.
#[tactic(auto, unfolding(crate::specs::Parts::version_parts))]
fn push_version_parts(out: &mut Vec<u8>, parts: &Parts) -> Result<(), NoMemory>
    ensures { OnOk result (out.new.items ≡ out.old.items ++ version_parts parts.now) }
{
    push_padded(out, parts.versym.as_bytes())?;
    push_padded(out, parts.verdef.as_bytes())?;
    push_padded(out, parts.verneed.as_bytes())
}

/// Appends the parts, each filled up.
#[tactic(auto, unfolding(crate::specs::Parts::part_bytes))]
pub(crate) fn push_parts(out: &mut Vec<u8>, parts: &Parts) -> Result<(), NoMemory>
    ensures { OnOk result (out.new.items ≡ out.old.items ++ part_bytes parts.now) }
{
    push_symbol_parts(out, parts)?;
    push_version_parts(out, parts)
}

/// Where a part ends, filled up, that begins at a place.
#[tactic(auto, unfolding(elf_shape::specs::Bytes::padded))]
pub fn after(place: u64, part: &[u8]) -> Result<u64, NoMemory>
    ensures { IfOk result (λ end. end ≡ after place part.now) }
{
    let end = place as u128 + part.len() as u128 + gap(part.len()) as u128;
    u64::try_from(end).map_err(|_| NoMemory)
}
