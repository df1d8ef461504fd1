//! An edit of a file: bytes over old ones, and what follows them. The definition is `laid` in
//! `specs/Pieces.antt`.

ghost use Rattle.std.specs.Prelude.{◌≡◌, length, take};
ghost use Rattle.elf_rewrite.specs.Pieces.{Overlay, StaysWithin, laid, length_of};

use crate::apply::apply_all;
use crate::fill::{fill_pieces, total_size};
use crate::patch::{Patch, Piece};
use load_model::List;
use std::marker::Model;

/// What makes a new file of an old one.
#[derive(Drop)]
pub struct Edit {
    old_len: usize,
    patches: List<Patch>,
    added: List<Piece>,
}

impl Model for Edit {
    ghost use Rattle.elf_rewrite.specs.Pieces.{Overlay, StaysWithin};

    ghost Value = { Overlay };

    ghost view = { λ e. record { old_len = e.old_len; patches = e.patches; added = e.added } };

    ghost invariant = { λ e. StaysWithin (record {
      old_len = e.old_len;
      patches = e.patches;
      added = e.added;
    }) };
}

impl Edit {
    pub(crate) fn new(old_len: usize, patches: List<Patch>, added: List<Piece>) -> Edit
        requires { StaysWithin (record { old_len = old_len; patches = patches; added = added }) }
        ensures { result ≡ record { old_len = old_len; patches = patches; added = added } }
    {
        Edit {
            old_len,
            patches,
            added,
        }
    }

    /// The length of the new file.
    pub fn new_len(&self) -> usize
        ensures { result ≡ length_of self.now }
    {
        self.old_len + total_size(self.added.as_slice()) as usize
    }

    /// Makes the new file in place, in a buffer of its length that begins with the old one.
    ///
    /// Takes no memory.
    pub fn apply(&self, buf: &mut [u8])
        requires { length buf.old ≡ length_of self.now }
        ensures { buf.new ≡ laid (take self.now.old_len buf.old) self.now }
    {
        let (old, added) = buf.split_at_mut(self.old_len);
        fill_pieces(added, old, self.added.as_slice());
        apply_all(old, self.patches.as_slice());
    }
}
