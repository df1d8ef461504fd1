//! The dynamic table of a file.

ghost use Rattle.std.specs.Prelude.{◌≡◌, ◌<◌, IfOk, IfSome, Some, length, position, take};
ghost use Rattle.std.specs.List.{before_first};
ghost use Rattle.std.specs.Option.{option_copied};
ghost use Rattle.answers.specs.Answers.{TellsBy};
ghost use Rattle.byte_view.specs.Dynamic.{is_end, string_at, strings_at, strings_size};
ghost use Rattle.byte_view.specs.DynamicFlaws.{dynamic_flaw, table_flaw};
ghost use Rattle.byte_view.specs.Memory.{range_in};
ghost use Rattle.byte_view.specs.Sound.{IsReadFrom};
ghost use Rattle.dyn_table.specs.Faults.{dyn_fault_flaw};
ghost use Rattle.dyn_table.specs.Table.{IsTableOf};

use crate::faults::{DynFault, flawed};
use crate::segment::read_table;
use crate::strings::{check_strings, text_at};
use crate::tags::check_tags;
use byte_view::Entry;
use byte_view::constants::DT_NULL;
use byte_view::flaws::NO_END;
use elf_headers::Elf;
use std::alloc::Global;
use std::marker::Model;

/// The dynamic table of a file in which it has no flaw. The file's bytes are not kept.
#[derive(Drop)]
pub struct Dyn {
    entries: Vec<Entry>,
    capacity: usize,
    from: usize,
    to: usize,
}

impl Model for Dyn {
    ghost use Rattle.dyn_table.specs.Table.{Table};

    ghost Value = { Table };

    ghost view = { λ t. record {
      entries = t.entries.items;
      capacity = t.capacity;
      from = t.from;
      to = t.to;
    } };
}

impl Dyn {
    /// Reads the dynamic table of the file whose headers `elf` has.
    ///
    /// Answers the first flaw of the table, in the order of `docs/ELF.md`, or `NoMemory`.
    #[tactic(auto, unfolding(byte_view::specs::Dynamic::dynamic_entries, byte_view::specs::DynamicFlaws::dynamic_flaw))]
    pub fn read(alloc: Global, elf: &Elf, bytes: &[u8]) -> Result<Dyn, DynFault>
        requires { IsReadFrom elf.now bytes.now }
        ensures flaw { TellsBy dyn_fault_flaw result (dynamic_flaw bytes.now) }
        ensures table { IfOk result (λ t. IsTableOf t bytes.now) }
    {
        let mut entries = read_table(alloc, elf, bytes)?;
        let capacity = entries.len();
        let parts = check_table(elf, bytes, &entries)?;
        entries.truncate(parts.end);
        Ok(Dyn {
            entries,
            capacity,
            from: parts.from,
            to: parts.to,
        })
    }

    /// The entries before the first `DT_NULL`.
    pub fn entries(&self) -> &[Entry]
        ensures { result.now ≡ self.now.entries }
    {
        &self.entries
    }

    /// How many entries the segment has room for.
    pub fn capacity(&self) -> usize
        ensures { result ≡ self.now.capacity }
    {
        self.capacity
    }

    /// The bytes from a string place up to the next zero byte. `None` where the string table ends
    /// before the place.
    ///
    /// `bytes` are those that the table was read from.
    #[tactic(auto, unfolding(byte_view::specs::Dynamic::string_at))]
    pub fn text<'a>(&self, bytes: &'a [u8], at: u64) -> Option<&'a [u8]>
        requires { IsTableOf self.now bytes.now }
        ensures { option_copied result ≡ string_at bytes.now at }
    {
        let strings = &bytes[self.from..self.to];
        if at < strings.len() as u64 {
            Some(text_at(strings, at as usize))
        } else {
            None
        }
    }
}

/// Where the entries end, and where the strings begin and end in the file.
#[derive(Clone, Copy)]
struct Parts {
    end: usize,
    from: usize,
    to: usize,
}

/// Whether there is an end, and the entries before it are such that they can be read.
#[tactic(auto, unfolding(byte_view::specs::DynamicFlaws::table_flaw), using(crate::proofs::Ends::end_is, crate::proofs::Ends::no_end_is))]
fn check_table(elf: &Elf, bytes: &[u8], table: &[Entry]) -> Result<Parts, DynFault>
    requires { IsReadFrom elf.now bytes.now }
    ensures flaw { TellsBy dyn_fault_flaw result (table_flaw bytes.now elf.now table.now) }
    ensures end { IfOk result (λ parts. take parts.end table.now ≡ before_first is_end table.now) }
    ensures strings { IfOk result (λ parts.
        let entries = before_first is_end table.now in
        range_in elf.now (strings_at entries) (strings_size entries)
        ≡ Some (parts.from, parts.to)) }
{
    let Some(end) = first_end(table) else {
        return Err(flawed(NO_END, 0));
    };
    let entries = &table[..end];
    check_tags(entries)?;
    let (from, to) = check_strings(elf, bytes, entries)?;
    Ok(Parts { end, from, to })
}

fn first_end(table: &[Entry]) -> Option<usize>
    ensures place { result ≡ position is_end table.now }
    ensures bound { IfSome result (λ i. i < length table.now) }
{
    table.iter().position(|e| e.tag == DT_NULL)
}
