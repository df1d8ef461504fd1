//! Why a file is not rewritten: the refusals, the number and the evidence of each. Definitions:
//! `specs/RewriteRefusal.antt`.

ghost use Rattle.std.specs.Prelude.{◌≡◌, [], ◌++◌, IfOk, codes};
ghost use Rattle.std.specs.Fmt.{decimal};
ghost use Rattle.load_model.specs.Escaping.{escaped};
ghost use Rattle.refusals.specs.Fields.{with_field};
ghost use Rattle.refusals.specs.RewriteRefusal.{rewrite_evidence, rewrite_number};
ghost use Rattle.refusals.specs.Tables.{table_text};

use crate::fields::with_field;
use crate::numbers::{NO_ROOM, STRINGS_TOO_LONG, TABLE_OVERLAP, TOO_LARGE, TOO_MANY_HEADERS};
use crate::tables::table_text;
use load_model::Text;
use path_text::{Abs, NoMemory};
use std::alloc::Global;

/// Why a file cannot get other names: each with its path, and its evidence.
#[derive(Drop)]
pub enum RewriteRefusal {
    /// No segment can be added above the others.
    NoRoom(Abs),
    /// Two tables of the file share a place: the numbers of both, and the file.
    TableOverlap(u8, u8, Abs),
    /// There would be more program headers than their number can say.
    TooManyHeaders(Abs),
    /// The new file would have this length: the file, and the length.
    TooLarge(Abs, u64),
    /// The places in the new string table would not all fit in 32 bits.
    StringsTooLong(Abs),
}

/// The number of a refusal.
pub fn rewrite_number(refusal: &RewriteRefusal) -> u8
    ensures { result ≡ rewrite_number refusal.now }
{
    match refusal {
        RewriteRefusal::NoRoom(_) => NO_ROOM,
        RewriteRefusal::TableOverlap(_, _, _) => TABLE_OVERLAP,
        RewriteRefusal::TooManyHeaders(_) => TOO_MANY_HEADERS,
        RewriteRefusal::TooLarge(_, _) => TOO_LARGE,
        RewriteRefusal::StringsTooLong(_) => STRINGS_TOO_LONG,
    }
}

/// What a refusal says.
pub fn rewrite_evidence(alloc: Global, refusal: &RewriteRefusal) -> Result<Text, NoMemory>
    ensures { IfOk result (λ text. text ≡ rewrite_evidence refusal.now) }
{
    match refusal {
        RewriteRefusal::NoRoom(path) => {
            with_field(
                alloc,
                b"no room for a segment in ",
                path.as_str().as_bytes(),
                b"",
            )
        }
        RewriteRefusal::TableOverlap(one, other, path) => overlap(alloc, *one, *other, path),
        RewriteRefusal::TooManyHeaders(path) => {
            with_field(
                alloc,
                b"too many program headers in ",
                path.as_str().as_bytes(),
                b"",
            )
        }
        RewriteRefusal::TooLarge(path, length) => too_large(alloc, path, *length),
        RewriteRefusal::StringsTooLong(path) => {
            with_field(
                alloc,
                b"strings of ",
                path.as_str().as_bytes(),
                b" are too long",
            )
        }
    }
}

fn overlap(alloc: Global, one: u8, other: u8, path: &Abs) -> Result<Text, NoMemory>
    ensures { IfOk result
        (λ text. text ≡ rewrite_evidence (RewriteRefusal.TableOverlap one other path.now)) }
{
    let tables = both_tables(alloc, one, other)?;
    with_field(alloc, tables.as_bytes(), path.as_str().as_bytes(), b"")
}

/// What is said of two tables, up to the path of their file.
fn both_tables(alloc: Global, one: u8, other: u8) -> Result<Text, NoMemory>
    ensures { IfOk result (λ text. text ≡ codes "overlap of "
        ++ (table_text one ++ (codes " and " ++ (table_text other ++ codes " in ")))) }
{
    let one = table_text(alloc, one)?;
    let other = table_text(alloc, other)?;
    let mut text = Vec::from_slice(alloc, b"overlap of ")?;
    text.extend_from_slice(one.as_bytes())?;
    text.extend_from_slice(b" and ")?;
    text.extend_from_slice(other.as_bytes())?;
    text.extend_from_slice(b" in ")?;
    Ok(Text::from_vec(text))
}

fn too_large(alloc: Global, path: &Abs, length: u64) -> Result<Text, NoMemory>
    ensures { IfOk result
        (λ text. text ≡ rewrite_evidence (RewriteRefusal.TooLarge path.now length)) }
{
    let end = length_said(alloc, length)?;
    with_field(alloc, b"", path.as_str().as_bytes(), end.as_bytes())
}

/// What is said of a length, behind the path of the file that would have it.
fn length_said(alloc: Global, length: u64) -> Result<Text, NoMemory>
    ensures { IfOk result
        (λ text. text ≡ codes " would have " ++ (decimal length ++ codes " bytes")) }
{
    let text = format!(in alloc; " would have {length} bytes")?;
    Text::from_bytes(alloc, text.as_bytes())
}
