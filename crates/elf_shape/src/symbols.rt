//! The symbols of a made file: the null one, the imports, the exports.
//!
//! System V gABI, Symbol Table.

ghost use Rattle.std.specs.Prelude.{[], ◌∷◌, ◌≡◌, ◌+◌, ◌++◌, length, map, OnOk, IfOk};
ghost use Rattle.elf_shape.specs.Bytes.{halves, words};
ghost use Rattle.elf_shape.specs.Symbols.{global_info, import_symbol, export_symbol, exports_from, has_no_value, plain_imports, valued_imports, made_symbols, symbol_bytes, symbol_table, version_indexes};

use crate::numbers::{push_bytes, push_halves, push_longs, push_words};
use crate::shape::{Export, Import, Shape};
use crate::strings::Strings;
use crate::versions::Versions;
use byte_view::constants::{SHN_UNDEF, STB_GLOBAL};
use hash_chains::gnu_hash;
use load_model::{List, Name, NoMemory, Text};
use std::alloc::Global;

/// A symbol of a made file.
#[derive(Clone, Copy)]
pub struct Symbol {
    /// The string place of its name.
    pub name: u32,
    /// The hash of its name in the GNU hash table.
    pub hash: u32,
    pub info: u8,
    pub section: u16,
    pub value: u64,
    pub size: u64,
    /// Its word among the version indexes.
    pub version: u16,
}

/// The symbol of index 0.
const NULL: Symbol = Symbol {
    name: 0,
    hash: 0,
    info: 0,
    section: SHN_UNDEF,
    value: 0,
    size: 0,
    version: 0,
};

/// Binding and type of a global symbol.
fn global_info(kind: u8) -> u8
    ensures { result ≡ global_info kind }
{
    16 * STB_GLOBAL + kind % 16
}

#[tactic(auto, unfolding(crate::specs::Symbols::import_symbol))]
fn import_symbol(texts: &Strings, versions: &Versions, import: &Import) -> Result<Symbol, NoMemory>
    ensures { IfOk result (λ symbol. symbol ≡ import_symbol texts.now versions.now import.now) }
{
    Ok(Symbol {
        name: texts.place(import.name.as_bytes()),
        hash: gnu_hash(import.name.as_bytes()),
        info: global_info(import.kind),
        section: SHN_UNDEF,
        value: import.value,
        size: 0,
        version: versions.import_index(import)?,
    })
}

/// The symbol of an export, by its index.
#[tactic(auto, unfolding(crate::specs::Symbols::export_symbol))]
fn export_symbol(
    texts: &Strings,
    versions: &Versions,
    index: u32,
    export: &Export,
) -> Result<Symbol, NoMemory>
    ensures { IfOk result
        (λ symbol. symbol ≡ export_symbol texts.now versions.now index export.now) }
{
    Ok(Symbol {
        name: texts.place(export.name.as_bytes()),
        hash: gnu_hash(export.name.as_bytes()),
        info: global_info(export.kind),
        section: 1,
        value: 16 * index as u64,
        size: 8,
        version: versions.export_index(export)?,
    })
}

fn has_no_value(import: &Import) -> bool
    ensures { result ≡ has_no_value import.now }
{
    import.value == 0
}

/// How many imports have no value.
#[tactic(auto, unfolding(crate::specs::Symbols::plain_imports))]
pub fn count_plain(shape: &Shape) -> usize
    ensures { result ≡ length (plain_imports shape.now) }
{
    let mut count = 0;
    let imports = shape.imports.as_slice();
    for import in imports {
        if has_no_value(import) {
            count += 1;
        }
    }
    count
}

/// Appends an import.
fn push_import(
    out: &mut List<Symbol>,
    texts: &Strings,
    versions: &Versions,
    import: &Import,
) -> Result<(), NoMemory>
    ensures { OnOk result
        (out.new ≡ out.old ++ import_symbol texts.now versions.now import.now ∷ []) }
{
    let symbol = import_symbol(texts, versions, import)?;
    out.push(symbol)
}

/// Appends the imports that have no value.
#[tactic(auto, unfolding(crate::specs::Symbols::plain_imports))]
fn push_plain(
    out: &mut List<Symbol>,
    shape: &Shape,
    texts: &Strings,
    versions: &Versions,
) -> Result<(), NoMemory>
    ensures { OnOk result
        (out.new ≡ out.old
        ++ map (import_symbol texts.now versions.now) (plain_imports shape.now)) }
{
    let imports = shape.imports.as_slice();
    for import in imports {
        if has_no_value(import) {
            push_import(out, texts, versions, import)?;
        }
    }
    Ok(())
}

/// Appends the imports that have a value.
#[tactic(auto, unfolding(crate::specs::Symbols::valued_imports))]
fn push_valued(
    out: &mut List<Symbol>,
    shape: &Shape,
    texts: &Strings,
    versions: &Versions,
) -> Result<(), NoMemory>
    ensures { OnOk result
        (out.new ≡ out.old
        ++ map (import_symbol texts.now versions.now) (valued_imports shape.now)) }
{
    let imports = shape.imports.as_slice();
    for import in imports {
        if !has_no_value(import) {
            push_import(out, texts, versions, import)?;
        }
    }
    Ok(())
}

/// Appends an export, by its index.
fn push_export(
    out: &mut List<Symbol>,
    index: u32,
    export: &Export,
    texts: &Strings,
    versions: &Versions,
) -> Result<(), NoMemory>
    ensures { OnOk result
        (out.new ≡ out.old ++ export_symbol texts.now versions.now index export.now ∷ []) }
{
    let symbol = export_symbol(texts, versions, index, export)?;
    out.push(symbol)
}

/// Appends the exports, of which the first has the index `first`.
fn push_exports(
    out: &mut List<Symbol>,
    first: u32,
    exports: &[Export],
    texts: &Strings,
    versions: &Versions,
) -> Result<(), NoMemory>
    ensures { OnOk result
        (out.new ≡ out.old ++ exports_from texts.now versions.now first exports.now) }
{
    let mut index = first;
    for export in exports {
        push_export(out, index, export, texts, versions)?;
        index = next_index(index)?;
    }
    Ok(())
}

fn next_index(index: u32) -> Result<u32, NoMemory>
    ensures { IfOk result (λ next. next ≡ index + 1) }
{
    index.checked_add(1).ok_or(NoMemory)
}

/// A count that a file has room for.
pub fn count_of(len: usize) -> Result<u32, NoMemory>
    ensures { IfOk result (λ count. count ≡ len) }
{
    u32::try_from(len).map_err(|_| NoMemory)
}

/// Appends the imports, those that have no value first.
fn push_imports(
    out: &mut List<Symbol>,
    shape: &Shape,
    texts: &Strings,
    versions: &Versions,
) -> Result<(), NoMemory>
    ensures { OnOk result
        (out.new
        ≡ out.old
        ++ (map (import_symbol texts.now versions.now) (plain_imports shape.now)
        ++ map (import_symbol texts.now versions.now) (valued_imports shape.now))) }
{
    push_plain(out, shape, texts, versions)?;
    push_valued(out, shape, texts, versions)
}

/// The index of the first export.
fn first_export(shape: &Shape) -> Result<u32, NoMemory>
    ensures { IfOk result (λ first. first ≡ 1 + length shape.now.imports) }
{
    next_index(count_of(shape.imports.as_slice().len())?)
}

/// Appends the exports behind the imports.
fn push_own(
    out: &mut List<Symbol>,
    shape: &Shape,
    texts: &Strings,
    versions: &Versions,
) -> Result<(), NoMemory>
    ensures { OnOk result
        (out.new
        ≡ out.old
        ++ exports_from texts.now versions.now (1 + length shape.now.imports) shape.now.exports) }
{
    let first = first_export(shape)?;
    push_exports(out, first, shape.exports.as_slice(), texts, versions)
}

/// The symbols by index.
#[tactic(auto, unfolding(crate::specs::Symbols::made_symbols))]
pub fn symbols_of(
    alloc: Global,
    shape: &Shape,
    texts: &Strings,
    versions: &Versions,
) -> Result<List<Symbol>, NoMemory>
    ensures { IfOk result (λ symbols. symbols ≡ made_symbols shape.now texts.now versions.now) }
{
    let mut symbols = List::new(alloc);
    symbols.push(NULL)?;
    push_imports(&mut symbols, shape, texts, versions)?;
    push_own(&mut symbols, shape, texts, versions)?;
    Ok(symbols)
}

/// Appends the words of a symbol that say what it is: its name, type and section.
fn push_kind(out: &mut Vec<u8>, symbol: Symbol) -> Result<(), NoMemory>
    ensures { OnOk result
        (out.new.items
        ≡ out.old.items
        ++ (words (symbol.name ∷ []) ++ ((symbol.info ∷ 0 ∷ []) ++ halves (symbol.section ∷ [])))) }
{
    push_words(out, &[symbol.name])?;
    push_bytes(out, &[symbol.info, 0])?;
    push_halves(out, &[symbol.section])
}

/// Appends the words of a symbol.
#[tactic(auto, unfolding(crate::specs::Symbols::symbol_bytes))]
fn push_symbol(out: &mut Vec<u8>, symbol: Symbol) -> Result<(), NoMemory>
    ensures { OnOk result (out.new.items ≡ out.old.items ++ symbol_bytes symbol) }
{
    push_kind(out, symbol)?;
    push_longs(out, &[symbol.value, symbol.size])
}

/// Appends the words of symbols.
#[tactic(auto, unfolding(crate::specs::Symbols::symbol_table))]
fn push_symbols(out: &mut Vec<u8>, symbols: &[Symbol]) -> Result<(), NoMemory>
    ensures { OnOk result (out.new.items ≡ out.old.items ++ symbol_table symbols.now) }
{
    for symbol in symbols {
        push_symbol(out, *symbol)?;
    }
    Ok(())
}

/// The symbol table.
pub fn symbol_table(alloc: Global, symbols: &[Symbol]) -> Result<Text, NoMemory>
    ensures { IfOk result (λ table. table ≡ symbol_table symbols.now) }
{
    let mut table = Vec::new(alloc);
    push_symbols(&mut table, symbols)?;
    Ok(Text::from_vec(table))
}

/// The version index of each symbol.
#[tactic(auto, unfolding(crate::specs::Symbols::version_indexes))]
pub fn version_indexes(alloc: Global, symbols: &[Symbol]) -> Result<Text, NoMemory>
    ensures { IfOk result (λ table. table ≡ version_indexes symbols.now) }
{
    let indexes: Vec<u16> = symbols.iter().map(|s| s.version).collect(alloc)?;
    let mut table = Vec::new(alloc);
    push_halves(&mut table, indexes.as_slice())?;
    Ok(Text::from_vec(table))
}
