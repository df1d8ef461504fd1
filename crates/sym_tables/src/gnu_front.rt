//! A table of the GNU tools up to its chain words.

ghost use Rattle.std.specs.Prelude.{[], ◌≡◌, ◌≢◌, ◌≤◌, ◌+◌, ◌*◌, ◌||◌, ◌==◌, None, true, IfOk, MatchOption, length, nat_le};
ghost use Rattle.std.specs.List.{list_all};
ghost use Rattle.byte_view.specs.Memory.{range_in};
ghost use Rattle.byte_view.specs.Sound.{IsReadFrom};
ghost use Rattle.load_model.specs.GnuTable.{chains_from, greatest, is_gnu_sound};
ghost use Rattle.sym_tables.specs.FoundTables.{front_table};
ghost use Rattle.sym_tables.specs.Places.{AreFrontParts, IsFrontOf, IsGnuHeader};

use crate::words::{words, xwords};
use elf_headers::{Elf, word};
use std::alloc::{AllocError, Global};

/// The first words of a table: how many buckets, the first listed symbol, how many Bloom words, and
/// the shift.
#[derive(Clone, Copy)]
pub(crate) struct GnuHeader {
    buckets: u32,
    offset: u32,
    bloom: u32,
    shift: u32,
}

/// The first words of the table at an address, if memory has them from the file.
#[tactic(auto, using(crate::proofs::Placing::gnu_header))]
fn header(elf: &Elf, bytes: &[u8], addr: u64) -> Option<GnuHeader>
    requires { IsReadFrom elf.now bytes.now }
    ensures { MatchOption result (range_in elf.now addr 16 ≡ None)
        (λ h. IsGnuHeader h bytes.now elf.now addr) }
{
    let (from, _) = elf.range(addr, 16)?;
    let at = from as u64;
    Some(GnuHeader {
        buckets: word(bytes, at),
        offset: word(bytes, at + 4),
        bloom: word(bytes, at + 8),
        shift: word(bytes, at + 12),
    })
}

fn greatest(buckets: &[u32]) -> u32
    ensures { result ≡ greatest buckets.now }
{
    buckets.iter().fold(0, |top, bucket| top.max(*bucket))
}

fn are_beginnings(offset: u32, buckets: &[u32]) -> bool
    ensures { result ≡ list_all (λ b. (b == 0) || nat_le offset b) buckets.now }
{
    buckets.iter().all(|b| *b == 0 || offset <= *b)
}

/// A table up to its chain words: the first symbol that is listed, the shift and the words of the
/// Bloom filter, the buckets, and how many bytes these take.
#[derive(Drop)]
pub(crate) struct Front {
    pub(crate) offset: u32,
    pub(crate) shift: u32,
    pub(crate) bloom: Vec<u64>,
    pub(crate) buckets: Vec<u32>,
    pub(crate) size: u64,
}

impl Front {
    /// The parts of a table behind its first words.
    fn words_of(
        alloc: Global,
        bytes: &[u8],
        header: &GnuHeader,
        from: usize,
    ) -> Result<Front, AllocError>
        requires { from + (16 + 8 * header.now.bloom + 4 * header.now.buckets) ≤ length bytes.now }
        ensures { IfOk result (λ f. AreFrontParts bytes.now header.now from f) }
    {
        let filter = from as u64 + 16;
        let bloom = xwords(alloc, bytes, filter, u64::from(header.bloom))?;
        let after = filter + 8 * u64::from(header.bloom);
        let buckets = words(alloc, bytes, after, u64::from(header.buckets))?;
        Ok(Front {
            offset: header.offset,
            shift: header.shift,
            bloom,
            buckets,
            size: 16 + 8 * u64::from(header.bloom) + 4 * u64::from(header.buckets),
        })
    }

    /// The parts of the table at an address, if memory has them from the file.
    #[tactic(auto, using(crate::proofs::Placing::front_cut, crate::proofs::Placing::front_fits, crate::proofs::Placing::front_there))]
    pub(crate) fn read(
        alloc: Global,
        elf: &Elf,
        bytes: &[u8],
        addr: u64,
    ) -> Result<Option<Front>, AllocError>
        requires { IsReadFrom elf.now bytes.now }
        ensures { IfOk result
            (λ found. MatchOption found
            (range_in elf.now addr (chains_from bytes.now elf.now addr) ≡ None)
            (λ f. IsFrontOf f bytes.now elf.now addr)) }
    {
        let Some(header) = header(elf, bytes, addr) else {
            return Ok(None);
        };
        let size = 16 + 8 * u64::from(header.bloom) + 4 * u64::from(header.buckets);
        let Some((from, _)) = elf.range(addr, size) else {
            return Ok(None);
        };
        match Front::words_of(alloc, bytes, &header, from) {
            Ok(front) => Ok(Some(front)),
            Err(error) => Err(error),
        }
    }

    /// Does it have a bucket, as many Bloom words as a power of two, a shift within a hash, and
    /// buckets that begin chains?
    #[tactic(auto, unfolding(load_model::specs::GnuTable::is_gnu_sound))]
    pub(crate) fn is_sound(&self) -> bool
        ensures { result ≡ is_gnu_sound (front_table self.now []) }
    {
        !self.buckets.is_empty()
            && self.bloom.len().is_power_of_two()
            && self.shift < 32
            && are_beginnings(self.offset, &self.buckets)
    }

    /// The greatest bucket.
    pub(crate) fn top(&self) -> u32
        requires { is_gnu_sound (front_table self.now []) ≡ true }
        ensures value { result ≡ greatest self.now.buckets.items }
        ensures chain { result ≢ 0 → self.now.offset ≤ result }
    {
        greatest(&self.buckets)
    }
}
