//! The new string table: which texts it gains, where each of them stands, and their bytes.
//!
//! System V gABI, String Table; the definition is `growth` in `specs/Growth.antt`.

ghost use Rattle.std.specs.Prelude.{◌≡◌, ◌<◌, nat_le, length, IfOk};
ghost use Rattle.answers.specs.Answers.{TellsBy};
ghost use Rattle.answers.specs.First.{some_where};
ghost use Rattle.strtab_grow.specs.Growth.{Growth, growth, added, place_from, size_of, once, PlacesTexts};
ghost use Rattle.strtab_grow.specs.Stops.{grow_stop_named};

use crate::texts::{TABLE_LIMIT, holds, put_text, size_with};
use load_model::{Name, NoMemory};
use std::alloc::Global;
use std::marker::Model;

/// Texts that are added to a string table, each once, and where they stand in it.
#[derive(Drop)]
pub struct Grown {
    old_size: u64,
    size: u64,
    texts: Vec<Name>,
}

/// Why a string table cannot grow.
#[derive(Clone, Copy, Debug, PartialEq, Eq)]
pub enum GrowStop {
    /// The places of the new table do not all fit in 32 bits.
    TooLong,
    /// Memory is refused.
    NoMemory,
}

impl Model for Grown {
    ghost use Rattle.std.specs.Prelude.{◌≡◌, ◌<◌, ◌^◌};
    ghost use Rattle.strtab_grow.specs.Growth.{Growth, size_of, IsSmall};

    ghost Value = { Growth };

    ghost view = { λ g. record { old_size = g.old_size; texts = g.texts.items } };

    ghost invariant = { λ g. IsSmall g.size (record {
      old_size = g.old_size;
      texts = g.texts.items;
    }) };
}

impl Grown {
    /// Adds texts to a table of a size, each text once.
    #[tactic(auto, using(crate::proofs::TextLaws::keeps_texts))]
    pub fn plan(alloc: Global, old_size: u64, texts: &[Name]) -> Result<Grown, GrowStop>
        ensures stop { let size = size_of (growth old_size texts.now) in
            TellsBy grow_stop_named result
            (some_where (nat_le TABLE_LIMIT size) GrowStop.TooLong) }
        ensures value { IfOk result (λ g. g ≡ growth old_size texts.now) }
        ensures small { IfOk result (λ g. size_of g < TABLE_LIMIT) }
        ensures texts { IfOk result (λ g. PlacesTexts g texts.now) }
    {
        let Ok(texts) = each_once(alloc, texts) else {
            return Err(GrowStop::NoMemory);
        };
        match size_with(old_size, &texts) {
            None => Err(GrowStop::TooLong),
            Some(size) => Ok(Grown {
                old_size,
                size,
                texts,
            }),
        }
    }

    /// The size of the new table.
    pub fn size(&self) -> u64
        ensures { result ≡ size_of self.now }
    {
        self.size
    }

    /// The size of the added texts, each with its zero.
    pub fn added_size(&self) -> u64
        ensures { result ≡ length (added self.now.texts) }
    {
        self.size - self.old_size
    }

    /// The place of an added text in the new table.
    pub fn place(&self, text: &[u8]) -> Option<u64>
        ensures { result ≡ place_from self.now.old_size text.now self.now.texts }
    {
        let mut at = self.old_size;
        for new in &self.texts {
            let bytes = new.as_bytes();
            if bytes == text {
                return Some(at);
            }
            at += bytes.len() as u64 + 1;
        }
        None
    }

    /// Writes the added texts, each with its zero, over bytes of their size.
    pub fn fill(&self, buf: &mut [u8])
        requires { length buf.old ≡ length (added self.now.texts) }
        ensures { buf.new ≡ added self.now.texts }
    {
        let mut at = 0;
        for text in &self.texts {
            let bytes = text.as_bytes();
            let size = bytes.len() + 1;
            let end = at + size;
            put_text(&mut buf[at..end], bytes);
            at = end;
        }
    }
}

/// Copies of the texts, each once, in the order of their first places.
fn each_once(alloc: Global, texts: &[Name]) -> Result<Vec<Name>, NoMemory>
    ensures { IfOk result (λ v. v.items ≡ once texts.now) }
{
    let mut seen = Vec::new(alloc);
    for text in texts {
        if !holds(&seen, text.as_bytes()) {
            let copy = Name::from_bytes(alloc, text.as_bytes())?;
            if seen.push(copy).is_err() {
                return Err(NoMemory);
            }
        }
    }
    Ok(seen)
}
