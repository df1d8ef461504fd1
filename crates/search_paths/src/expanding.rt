//! An item of a run path with its tokens replaced by their texts (ld.so(8), Rpath token expansion).
//!
//! The expansion is said in `specs/RunPaths.antt` of `load_model`.

ghost use Rattle.std.specs.Prelude.{◌≡◌, ◌≤◌, ◌<◌, ◌++◌, IfOk, IfSome, MatchOption, drop, false, length, true};
ghost use Rattle.std.specs.List.{flat_map, list_any};
ghost use Rattle.std.specs.Option.{option_map};
ghost use Rattle.load_model.specs.RunPaths.{expanded, is_unset, part_text, parts_behind, parts_of_item, token_text};
ghost use Rattle.search_paths.specs.Tokens.{token_meant};

use crate::tokens::{Token, token_at};
use load_model::{Name, Setting};
use path_text::{Abs, NoMemory};
use std::alloc::Global;

/// The text of a piece at the front of an item, and how many bytes of the item it stands for.
#[derive(Clone, Copy)]
struct Piece<'a> {
    text: &'a [u8],
    length: usize,
}

/// An item with each token replaced by its text, or nothing where a token is not set. `folder` is
/// that of the object that holds the run path.
pub fn expand(
    alloc: Global,
    setting: &Setting,
    folder: &Abs,
    item: &[u8],
) -> Result<Option<Vec<u8>>, NoMemory>
    ensures { IfOk result (λ text. MatchOption text (list_any (is_unset setting.now folder.now)
        (parts_of_item item.now) ≡ true) (λ v. (list_any (is_unset setting.now folder.now)
        (parts_of_item item.now) ≡ false) × (v.items ≡ expanded setting.now folder.now item.now))) }
{
    let mut text = Vec::new(alloc);
    let mut rest = item;
    'pieces: while !rest.is_empty() {
        let Some(piece) = first_piece(setting, folder, rest) else {
            return Ok(None);
        };
        text.extend_from_slice(piece.text)?;
        rest = &rest[piece.length..];
    }
    Ok(Some(text))
}

/// The first piece of a text, a byte or the text of a token, or nothing where it is a token that is
/// not set.
fn first_piece<'a>(setting: &'a Setting, folder: &'a Abs, rest: &'a [u8]) -> Option<Piece<'a>>
    requires { 0 < length rest.now }
    ensures unset { MatchOption result (list_any (is_unset setting.now folder.now) (parts_behind
        rest.now 0) ≡ true) (λ p. list_any (is_unset setting.now folder.now) (parts_behind rest.now
        0) ≡ list_any (is_unset setting.now folder.now) (parts_behind (drop p.length rest.now) 0)) }
    ensures text { IfSome result (λ p. flat_map (part_text setting.now folder.now) (parts_behind
        rest.now 0) ≡ p.text.now ++ flat_map (part_text setting.now folder.now) (parts_behind (drop
        p.length rest.now) 0)) }
    ensures some { IfSome result (λ p. 0 < p.length) }
    ensures within { IfSome result (λ p. p.length ≤ length rest.now) }
{
    match token_at(rest) {
        Some(spelled) => {
            let text = token_text(setting, folder, spelled.token)?;
            Some(Piece {
                text,
                length: spelled.length + 1,
            })
        }
        None => Some(Piece {
            text: &rest[..1],
            length: 1,
        }),
    }
}

/// What a token stands for, where it is set.
fn token_text<'a>(setting: &'a Setting, folder: &'a Abs, token: Token) -> Option<&'a [u8]>
    ensures { option_map (λ text. text.now) result ≡ token_text setting.now folder.now (token_meant
        token) }
{
    match token {
        Token::Origin => Some(folder.as_str().as_bytes()),
        Token::Lib => set_text(&setting.lib),
        Token::Platform => set_text(&setting.platform),
    }
}

fn set_text(value: &Option<Name>) -> Option<&[u8]>
    ensures { option_map (λ text. text.now) result ≡ value.now }
{
    match value {
        Some(name) => Some(name.as_bytes()),
        None => None,
    }
}
