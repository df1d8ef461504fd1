//! The reach of a table of the GNU tools: one more than the last symbol that it has a chain word
//! for.

ghost use Rattle.std.specs.Prelude.{[], ◌≡◌, ◌≤◌, ◌<◌, ◌+◌, ◌-◌, ◌*◌, ◌^◌, true, false, IfSome, MatchOption, is_some, length};
ghost use Rattle.std.specs.List.{find, range_with_len};
ghost use Rattle.byte_view.specs.Memory.{range_in};
ghost use Rattle.byte_view.specs.Numbers.{number_at};
ghost use Rattle.byte_view.specs.Sound.{IsReadFrom};
ghost use Rattle.load_model.specs.GnuTable.{is_gnu_sound, is_last};
ghost use Rattle.sym_tables.specs.FoundTables.{front_table};
ghost use Rattle.sym_tables.specs.Places.{HasNoReach, IsFrontOf, IsReachOf};

use crate::gnu_front::Front;
use elf_headers::{Elf, word};

fn is_backed(elf: &Elf, addr: u64, len: u64) -> bool
    ensures { result ≡ is_some (range_in elf.now addr len) }
{
    elf.range(addr, len).is_some()
}

/// How many words memory has from the file, behind what it has of a table.
#[tactic(auto, using(crate::proofs::Reach::too_long))]
fn backed_words(elf: &Elf, bytes: &[u8], addr: u64, size: u64) -> u64
    requires read { IsReadFrom elf.now bytes.now }
    requires backed { is_some (range_in elf.now addr size) ≡ true }
    requires limit { size < 2 ^ 40 }
    ensures backed { is_some (range_in elf.now addr (size + 4 * result)) ≡ true }
    ensures most { is_some (range_in elf.now addr (size + 4 * (result + 1))) ≡ false }
    ensures limit { 4 * result ≤ length bytes.now }
{
    let mut low = 0;
    let mut high = bytes.len() as u64 / 4 + 1;
    'halve: while high - low > 1 {
        let middle = low + (high - low) / 2;
        if is_backed(elf, addr, size + 4 * middle) {
            low = middle;
        } else {
            high = middle;
        }
    }
    low
}

pub(crate) fn is_last(word: u32) -> bool
    ensures { result ≡ is_last word }
{
    word % 2 == 1
}

/// The first of the words `from` to `to` that ends a chain; they are counted from a place in the
/// file.
fn first_last(bytes: &[u8], at: u64, from: u64, to: u64) -> Option<u64>
    requires { at + 4 * to ≤ length bytes.now }
    ensures found { result ≡ find (λ k. is_last (number_at 4 bytes.now (at + 4 * k)))
        (range_with_len from (to - from)) }
    ensures bound { IfSome result (λ k. k < to) }
{
    (from..to).find(|k| is_last(word(bytes, at + 4 * *k)))
}

/// The reach of a table, and how many chain words it has up to there.
#[derive(Clone, Copy)]
pub(crate) struct Reach {
    pub(crate) reach: Option<u64>,
    pub(crate) words: u64,
}

impl Reach {
    /// The reach of the table, if the chain that begins at the greatest bucket ends where memory
    /// has it from the file.
    #[tactic(auto, using(crate::proofs::Placing::front_fits, crate::proofs::Reach::reach_found, crate::proofs::Reach::reach_lost, crate::proofs::Reach::no_reach))]
    pub(crate) fn of(front: &Front, elf: &Elf, bytes: &[u8], addr: u64) -> Option<Reach>
        requires read { IsReadFrom elf.now bytes.now }
        requires front { IsFrontOf front.now bytes.now elf.now addr }
        requires sound { is_gnu_sound (front_table front.now []) ≡ true }
        ensures { MatchOption result (HasNoReach bytes.now elf.now addr)
            (λ r. IsReachOf r bytes.now elf.now addr) }
    {
        let top = front.top();
        if top == 0 {
            return Some(Reach {
                reach: None,
                words: 0,
            });
        }
        let most = backed_words(elf, bytes, addr, front.size);
        let Some((from, _)) = elf.range(addr, front.size + 4 * most) else {
            return None;
        };
        let first = u64::from(top - front.offset);
        let Some(last) = first_last(bytes, from as u64 + front.size, first, most) else {
            return None;
        };
        Some(Reach {
            reach: Some(u64::from(front.offset) + last + 1),
            words: last + 1,
        })
    }
}
