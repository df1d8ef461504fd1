//! The stem of a file: its name without its ending. Definition: `specs/Stems.antt`.

ghost use Rattle.std.specs.Prelude.{◌≡◌};
ghost use Rattle.extra_files.specs.Stems.{before_last_dot, stem_of};

use path_text::Abs;

/// The last part of a path, without its last `.` and what follows.
#[tactic(auto, unfolding(crate::specs::Stems::stem_of))]
pub fn stem_of(path: &Abs) -> &[u8]
    ensures { result.now ≡ stem_of path.now }
{
    before_last_dot(path.base())
}

/// The text before its last `.`, and all of it where there is none.
fn before_last_dot(text: &[u8]) -> &[u8]
    ensures { result.now ≡ before_last_dot text.now }
{
    let mut end = text.len();
    'back: while end > 0 {
        end -= 1;
        if text[end] == b'.' {
            return &text[..end];
        }
    }
    text
}
