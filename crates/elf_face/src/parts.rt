//! The parts of a file, each read by its own reader.

ghost use Rattle.std.specs.Prelude.{◌≡◌, ◌<◌, ◌^◌, IfOk, length};
ghost use Rattle.std.specs.Option.{option_copied};
ghost use Rattle.answers.specs.Answers.{TellsBy};
ghost use Rattle.byte_view.specs.DynamicFlaws.{dynamic_flaw};
ghost use Rattle.byte_view.specs.HeaderFlaws.{header_flaw};
ghost use Rattle.byte_view.specs.Sound.{IsReadFrom};
ghost use Rattle.byte_view.specs.declared.constants.TheConstants.{DT_SONAME};
ghost use Rattle.dyn_table.specs.Table.{IsTableOf};
ghost use Rattle.elf_face.specs.Faults.{flaw_of};
ghost use Rattle.elf_face.specs.ReadParts.{ArePartsOf};
ghost use Rattle.load_model.specs.Faces.{first_flaw, name_flaw, named_text, needs_of};
ghost use Rattle.load_model.specs.SymbolFlaws.{symbol_count, symbol_flaw};
ghost use Rattle.load_model.specs.VersionFlaws.{version_flaw};
ghost use Rattle.sym_tables.specs.ReadSymbols.{IsSymsOf};
ghost use Rattle.version_tables.specs.VersionLists.{IsVersionsOf};

use crate::entries::{check_texts, named_text, needs_of};
use crate::faults::FaceFault;
use crate::interp::check_interp;
use crate::versions::check_files;
use byte_view::Flaw;
use byte_view::constants::{DT_NEEDED, DT_RPATH, DT_RUNPATH, DT_SONAME};
use dyn_table::{Dyn, DynFault};
use elf_headers::{Elf, ElfFault};
use load_model::{List, Name, NoMemory};
use std::alloc::Global;
use sym_tables::{SymFault, Syms};
use version_tables::{VersionFault, Versions};

/// The parts of a file that has no flaw.
#[derive(Drop)]
pub struct Parts {
    pub elf: Elf,
    pub table: Dyn,
    pub syms: Syms,
    pub versions: Versions,
}

impl Parts {
    /// Reads all parts and the names, or answers the first flaw of the file.
    #[tactic(auto, unfolding(load_model::specs::Faces::first_flaw))]
    pub fn read(alloc: Global, bytes: &[u8]) -> Result<Parts, FaceFault>
        ensures flaw { TellsBy flaw_of result (first_flaw bytes.now) }
        ensures parts { IfOk result (λ parts. ArePartsOf parts bytes.now) }
    {
        let elf = read_headers(alloc, bytes)?;
        let table = read_table(alloc, &elf, bytes)?;
        let syms = read_symbols(alloc, &elf, &table, bytes)?;
        let versions = read_versions(alloc, &elf, &table, syms.count(), bytes)?;
        match check_names(&elf, &table, &versions, bytes) {
            Ok(()) => Ok(Parts {
                elf,
                table,
                syms,
                versions,
            }),
            Err(fault) => Err(fault),
        }
    }

    /// The names of the needed libraries, in order, of the file that the parts were read from.
    pub fn needs(&self, alloc: Global, bytes: &[u8]) -> Result<List<Name>, NoMemory>
        requires { ArePartsOf self.now bytes.now }
        ensures { IfOk result (λ needs. needs ≡ needs_of bytes.now) }
    {
        needs_of(alloc, &self.table, bytes)
    }

    /// The file's own name, where it has one.
    pub fn soname<'a>(&self, bytes: &'a [u8]) -> Option<&'a [u8]>
        requires { ArePartsOf self.now bytes.now }
        ensures { option_copied result ≡ named_text bytes.now DT_SONAME }
    {
        named_text(&self.table, bytes, DT_SONAME)
    }
}

/// The headers, or their first flaw.
fn read_headers(alloc: Global, bytes: &[u8]) -> Result<Elf, FaceFault>
    ensures flaw { TellsBy flaw_of result (header_flaw bytes.now) }
    ensures read { IfOk result (λ elf. IsReadFrom elf bytes.now) }
{
    match Elf::read(alloc, bytes) {
        Ok(elf) => Ok(elf),
        Err(ElfFault::Flawed { code, a, b }) => Err(FaceFault::Flawed(Flaw { code, a, b })),
        Err(ElfFault::NoMemory) => Err(FaceFault::NoMemory),
    }
}

/// The dynamic table, or its first flaw.
fn read_table(alloc: Global, elf: &Elf, bytes: &[u8]) -> Result<Dyn, FaceFault>
    requires { IsReadFrom elf.now bytes.now }
    ensures flaw { TellsBy flaw_of result (dynamic_flaw bytes.now) }
    ensures read { IfOk result (λ table. IsTableOf table bytes.now) }
{
    match Dyn::read(alloc, elf, bytes) {
        Ok(table) => Ok(table),
        Err(DynFault::Flawed { code, a, b }) => Err(FaceFault::Flawed(Flaw { code, a, b })),
        Err(DynFault::NoMemory) => Err(FaceFault::NoMemory),
    }
}

/// The symbols, or their first flaw.
fn read_symbols(alloc: Global, elf: &Elf, table: &Dyn, bytes: &[u8]) -> Result<Syms, FaceFault>
    requires headers { IsReadFrom elf.now bytes.now }
    requires table { IsTableOf table.now bytes.now }
    ensures flaw { TellsBy flaw_of result (symbol_flaw bytes.now) }
    ensures read { IfOk result (λ syms. IsSymsOf syms bytes.now) }
{
    match Syms::read(alloc, elf, table, bytes) {
        Ok(syms) => Ok(syms),
        Err(SymFault::Flawed(flaw)) => Err(FaceFault::Flawed(flaw)),
        Err(SymFault::NoMemory) => Err(FaceFault::NoMemory),
    }
}

/// The versions of so many symbols, or their first flaw.
fn read_versions(
    alloc: Global,
    elf: &Elf,
    table: &Dyn,
    count: u32,
    bytes: &[u8],
) -> Result<Versions, FaceFault>
    requires headers { IsReadFrom elf.now bytes.now }
    requires table { IsTableOf table.now bytes.now }
    ensures flaw { TellsBy flaw_of result (version_flaw count bytes.now) }
    ensures read { IfOk result (λ versions. IsVersionsOf versions count bytes.now) }
    ensures few { IfOk result (λ versions. length versions.asks < 2 ^ 32) }
{
    match Versions::read(alloc, elf, table, count, bytes) {
        Ok(versions) => Ok(versions),
        Err(VersionFault::Flawed(flaw)) => Err(FaceFault::Flawed(flaw)),
        Err(VersionFault::NoMemory) => Err(FaceFault::NoMemory),
    }
}

/// Are the names all UTF-8 by which a loader looks for files?
#[tactic(auto, unfolding(load_model::specs::Faces::name_flaw))]
fn check_names(elf: &Elf, table: &Dyn, versions: &Versions, bytes: &[u8]) -> Result<(), FaceFault>
    requires headers { IsReadFrom elf.now bytes.now }
    requires table { IsTableOf table.now bytes.now }
    requires versions { IsVersionsOf versions.now (symbol_count bytes.now) bytes.now }
    ensures { TellsBy flaw_of result (name_flaw bytes.now) }
{
    check_texts(table, bytes, DT_NEEDED)?;
    check_texts(table, bytes, DT_SONAME)?;
    check_texts(table, bytes, DT_RPATH)?;
    check_texts(table, bytes, DT_RUNPATH)?;
    check_files(table, bytes, versions.file_words())?;
    check_interp(elf, bytes)
}
