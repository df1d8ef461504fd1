//! The tokens in an item of a run path: `$NAME` and `${NAME}` (ld.so(8), Rpath token expansion).
//!
//! Tokens are said in `specs/RunPaths.antt` of `load_model`.

ghost use Rattle.std.specs.Prelude.{◌≡◌, ◌≤◌, ◌<◌, IfSome, ◌+◌, length};
ghost use Rattle.std.specs.Option.{option_map};
ghost use Rattle.load_model.specs.RunPaths.{braced, is_closed, is_token_letter, spelled, token_behind, token_named, word_of};
ghost use Rattle.search_paths.specs.Tokens.{spelled_as, token_in, token_meant};

/// A token of a run path.
#[derive(Clone, Copy)]
pub enum Token {
    Origin,
    Lib,
    Platform,
}

/// A token that a text spells, and how many bytes it takes there.
#[derive(Clone, Copy)]
pub struct Spelled {
    pub token: Token,
    pub length: usize,
}

/// The token that a text begins with, if it begins with one.
pub fn token_at(text: &[u8]) -> Option<Spelled>
    requires { 0 < length text.now }
    ensures token { option_map spelled_as result ≡ token_in text.now }
    ensures within { IfSome result (λ s. s.length < length text.now) }
{
    if text[0] != b'$' {
        return None;
    }
    token_behind(&text[1..])
}

/// The token that stands behind a `$`, if these bytes spell one. Its length is that from behind the
/// `$`.
fn token_behind(text: &[u8]) -> Option<Spelled>
    ensures token { option_map spelled_as result ≡ token_behind text.now }
    ensures within { IfSome result (λ s. s.length ≤ length text.now) }
{
    match text.split_first() {
        Some((&b'{', inner)) => braced(inner),
        _ => bare(text),
    }
}

/// The token that `${NAME}` spells, from behind its brace. Its length is that from the brace on.
fn braced(text: &[u8]) -> Option<Spelled>
    ensures token { option_map spelled_as result ≡ braced text.now }
    ensures within { IfSome result (λ s. s.length ≤ length text.now + 1) }
{
    let word = word_of(text);
    if !is_closed(&text[word.len()..]) {
        return None;
    }
    let token = token_named(word)?;
    Some(Spelled {
        token,
        length: word.len() + 2,
    })
}

/// The token that `$NAME` spells, from behind the `$`.
fn bare(text: &[u8]) -> Option<Spelled>
    ensures token { option_map spelled_as result ≡ spelled 0 (word_of text.now) }
    ensures within { IfSome result (λ s. s.length ≤ length text.now) }
{
    let word = word_of(text);
    let token = token_named(word)?;
    Some(Spelled {
        token,
        length: word.len(),
    })
}

/// The longest run of letters, digits and `_` at the front.
fn word_of(text: &[u8]) -> &[u8]
    ensures word { result.now ≡ word_of text.now }
    ensures within { length result.now ≤ length text.now }
{
    &text[..word_length(text)]
}

fn word_length(text: &[u8]) -> usize
    ensures length { result ≡ length (word_of text.now) }
    ensures within { result ≤ length text.now }
{
    text.iter().take_while(|c| is_token_letter(**c)).count()
}

fn is_token_letter(c: u8) -> bool
    ensures { result ≡ is_token_letter c }
{
    matches!(c, b'A'..=b'Z' | b'a'..=b'z' | b'0'..=b'9' | b'_')
}

/// Whether the text begins with `}`.
fn is_closed(text: &[u8]) -> bool
    ensures { result ≡ is_closed text.now }
{
    text.first() == Some(&b'}')
}

fn token_named(word: &[u8]) -> Option<Token>
    ensures { option_map token_meant result ≡ token_named word.now }
{
    if word == b"ORIGIN".as_slice() {
        Some(Token::Origin)
    } else if word == b"LIB".as_slice() {
        Some(Token::Lib)
    } else if word == b"PLATFORM".as_slice() {
        Some(Token::Platform)
    } else {
        None
    }
}
