//! The symbol versions of a file.

ghost use Rattle.std.specs.Prelude.{◌≡◌, ◌<◌, ◌^◌, length, IfOk};
ghost use Rattle.answers.specs.Answers.{TellsBy};
ghost use Rattle.byte_view.specs.Sound.{IsReadFrom};
ghost use Rattle.dyn_table.specs.Table.{IsTableOf};
ghost use Rattle.load_model.specs.VersionFlaws.{version_flaw};
ghost use Rattle.version_tables.specs.Faults.{version_fault_flaw};
ghost use Rattle.version_tables.specs.VersionLists.{IsVersionsOf, lists_in};

use crate::faults::VersionFault;
use crate::kept::{Kept, read_kept};
use crate::lists::{
    AskLists, DefinitionLists, SymbolLists, ask_lists, definition_lists, symbol_lists,
};
use dyn_table::Dyn;
use elf_headers::Elf;
use load_model::{Ask, List, Name, NoMemory, Ver};
use std::alloc::Global;
use std::marker::Model;

/// The symbol versions of a file in which they have no flaw. The file's bytes are not kept.
#[derive(Drop)]
pub struct Versions {
    symbols: SymbolLists,
    definitions: DefinitionLists,
    asked: AskLists,
    file_words: Vec<u64>,
}

/// What a face keeps of the versions.
#[derive(Drop)]
pub struct VersionParts {
    /// The version of each symbol.
    pub of: Vec<Ver>,
    /// For each symbol, is it a definition that is not the default of its name?
    pub hidden: Vec<bool>,
    /// The names of the version definitions, in order.
    pub defs: List<Name>,
    /// The versions that are asked of other files, in order.
    pub asks: List<Ask>,
}

impl Model for Versions {
    ghost use Rattle.version_tables.specs.VersionLists.{VersionLists};

    ghost Value = { VersionLists };

    ghost view = { λ v. record {
      versions = v.symbols.versions.items;
      hidden = v.symbols.hidden.items;
      defs = v.definitions.names;
      asks = v.asked.asks;
      file_words = v.file_words.items;
      ask_needs = v.asked.needs.items;
      aux_places = v.asked.places.items;
      def_places = v.definitions.places.items;
    } };
}

impl Versions {
    /// Reads the versions of the file whose headers `elf` has, and `table` its dynamic table. The
    /// file has `count` symbols.
    ///
    /// Answers the first flaw of the versions, in the order of `docs/ELF.md`, or `NoMemory`.
    pub fn read(
        alloc: Global,
        elf: &Elf,
        table: &Dyn,
        count: u32,
        bytes: &[u8],
    ) -> Result<Versions, VersionFault>
        requires headers { IsReadFrom elf.now bytes.now }
        requires table { IsTableOf table.now bytes.now }
        ensures flaw { TellsBy version_fault_flaw result (version_flaw count bytes.now) }
        ensures table { IfOk result (λ v. IsVersionsOf v count bytes.now) }
        ensures few { IfOk result (λ v. length v.asks < 2 ^ 32) }
    {
        let kept = read_kept(alloc, elf, table, count, bytes)?;
        match Versions::of_kept(alloc, table, bytes, kept) {
            Ok(versions) => Ok(versions),
            Err(_) => Err(VersionFault::NoMemory),
        }
    }

    /// The version of each symbol.
    pub fn of(&self) -> &[Ver]
        ensures { result.now ≡ self.now.versions }
    {
        &self.symbols.versions
    }

    /// For each symbol, is it a definition that is not the default of its name?
    pub fn hidden(&self) -> &[bool]
        ensures { result.now ≡ self.now.hidden }
    {
        &self.symbols.hidden
    }

    /// The names of the version definitions, in order.
    pub fn defs(&self) -> &[Name]
        ensures { result.now ≡ self.now.defs }
    {
        self.definitions.names.as_slice()
    }

    /// The versions that are asked of other files, in order.
    pub fn asks(&self) -> &[Ask]
        ensures { result.now ≡ self.now.asks }
    {
        self.asked.asks.as_slice()
    }

    /// Where the `vn_file` word of each Verneed begins in the file, in order.
    pub fn file_words(&self) -> &[u64]
        ensures { result.now ≡ self.now.file_words }
    {
        &self.file_words
    }

    /// For each ask the number of its Verneed, counted from 0.
    pub fn ask_needs(&self) -> &[u32]
        ensures { result.now ≡ self.now.ask_needs }
    {
        &self.asked.needs
    }

    /// For each ask where its Vernaux begins in the file.
    pub fn aux_places(&self) -> &[u64]
        ensures { result.now ≡ self.now.aux_places }
    {
        &self.asked.places
    }

    /// For each definition where its Verdef and its first Verdaux begin in the file.
    pub fn def_places(&self) -> &[(u64, u64)]
        ensures { result.now ≡ self.now.def_places }
    {
        &self.definitions.places
    }

    /// Gives the lists of a face away. The places in the file are let go.
    pub fn into_parts(self) -> VersionParts
        ensures of { result.of.items ≡ self.versions }
        ensures hidden { result.hidden.items ≡ self.hidden }
        ensures defs { result.defs ≡ self.defs }
        ensures asks { result.asks ≡ self.asks }
    {
        let symbols = self.symbols;
        let definitions = self.definitions;
        let asked = self.asked;
        VersionParts {
            of: symbols.versions,
            hidden: symbols.hidden,
            defs: definitions.names,
            asks: asked.asks,
        }
    }

    /// With names in place of string places.
    #[tactic(auto, unfolding(crate::specs::VersionLists::lists_in))]
    fn of_kept(alloc: Global, table: &Dyn, bytes: &[u8], kept: Kept) -> Result<Versions, NoMemory>
        requires { IsTableOf table.now bytes.now }
        ensures { IfOk result
            (λ v. v
            ≡ lists_in bytes.now kept.words.items kept.places.items kept.definitions.items
            kept.needs.file_words.items kept.needs.asks.items) }
    {
        let symbols = symbol_lists(alloc, table, bytes, &kept.places, &kept.words)?;
        let definitions = definition_lists(alloc, table, bytes, &kept.definitions)?;
        let asked = ask_lists(alloc, table, bytes, &kept.needs.asks)?;
        let needs = kept.needs;
        Ok(Versions {
            symbols,
            definitions,
            asked,
            file_words: needs.file_words,
        })
    }
}
