//! Pieces, put together behind the old bytes.

ghost use Rattle.std.specs.Prelude.{◌≡◌, ◌≤◌, ◌<◌, ◌^◌, length, true};
ghost use Rattle.std.specs.List.{All};
ghost use Rattle.elf_rewrite.specs.Pieces.{piece_bytes, put_together, piece_size, is_within, total_size};

use crate::patch::Piece;

/// Puts pieces over the old bytes together in a part of their size.
pub(crate) fn fill_pieces(part: &mut [u8], old: &[u8], pieces: &[Piece])
    requires long { length part.old ≡ length (put_together old.now pieces.now) }
    requires within { All (λ p. is_within (length old.now) p ≡ true) pieces.now }
    ensures { part.new ≡ put_together old.now pieces.now }
{
    let mut at = 0;
    for piece in pieces {
        let end = at + piece_size(piece) as usize;
        fill_piece(&mut part[at..end], old, piece);
        at = end;
    }
}

/// How many bytes the pieces have together.
pub(crate) fn total_size(pieces: &[Piece]) -> u64
    requires { total_size pieces.now < 2 ^ 64 }
    ensures { result ≡ total_size pieces.now }
{
    let mut total = 0;
    for piece in pieces {
        total += piece_size(piece);
    }
    total
}

fn piece_size(piece: &Piece) -> u64
    ensures { result ≡ piece_size piece.now }
{
    match piece {
        Piece::Old { len, .. } => *len,
        Piece::New(bytes) => bytes.as_bytes().len() as u64,
        Piece::Zeros(count) => *count,
    }
}

fn fill_piece(part: &mut [u8], old: &[u8], piece: &Piece)
    requires long { length part.old ≡ piece_size piece.now }
    requires within { is_within (length old.now) piece.now ≡ true }
    ensures { part.new ≡ piece_bytes old.now piece.now }
{
    match piece {
        Piece::Old { at, len } => part.copy_from_slice(&old[*at as usize..(*at + *len) as usize]),
        Piece::New(bytes) => part.copy_from_slice(bytes.as_bytes()),
        Piece::Zeros(_) => part.fill(0),
    }
}
