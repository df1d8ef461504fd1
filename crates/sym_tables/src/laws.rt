//! Laws of symbols and hash tables, each the contract of a function that does nothing.

ghost use Rattle.std.specs.Prelude.{◌≡◌, ◌≢◌, ◌≤◌, ◌+◌, ◌↔◌, ◌==◌, ℕ, List, Some, None, length, slice_get, true};
ghost use Rattle.std.specs.List.{list_any};
ghost use Rattle.byte_view.specs.Dynamic.{dynamic_entries};
ghost use Rattle.byte_view.specs.Headers.{headers};
ghost use Rattle.byte_view.specs.declared.segments.Segment.{Segment};
ghost use Rattle.load_model.specs.Hashes.{gnu_hash, sysv_hash};
ghost use Rattle.load_model.specs.SymbolCount.{reach_count};
ghost use Rattle.load_model.specs.SymbolFlaws.{bad_gnu, gnu_in, is_offerable, name_in, symbol_count, symbol_flaw, symbols_of, sysv_in};
ghost use Rattle.load_model.specs.SysvTable.{IsChain, SysvTable, ends_in, is_in_chain, sysv_lists};
ghost use Rattle.load_model.specs.GnuTable.{GnuTable, gnu_buckets, gnu_lists, gnu_reach, greatest};
ghost use Rattle.load_model.specs.declared.symbols.RawSym.{RawSym};
ghost use Rattle.sym_tables.specs.LeastEnds.{IsLeastEnd};
ghost use Rattle.sym_tables.specs.Listing.{file_strings};

/// In a file without these flaws the GNU hash table reaches no further than the symbols.
pub fn reach_within_symbols()
    ensures { (file : List ℕ) (reach : ℕ) → symbol_flaw file ≡ None
        → reach_count file (headers file) (dynamic_entries file) ≡ Some reach
        → reach ≤ symbol_count file }
{}

/// In a GNU hash table without a flaw the reach is one more than the least index, from the greatest
/// bucket on, whose chain word is odd, and there is one; where all buckets are 0 there is no reach.
pub fn reach_is_least()
    ensures none { (file : List ℕ) (segments : List Segment) (addr : ℕ)
        → greatest (gnu_buckets file segments addr) ≡ 0
        → gnu_reach file segments addr ≡ None }
    ensures there { (file : List ℕ) (segments : List Segment) (addr : ℕ)
        → bad_gnu file segments (Some addr) ≡ None
        → greatest (gnu_buckets file segments addr) ≢ 0
        → (last : ℕ) × (gnu_reach file segments addr ≡ Some (last + 1)) }
    ensures least { (file : List ℕ) (segments : List Segment) (addr last : ℕ)
        → bad_gnu file segments (Some addr) ≡ None
        → greatest (gnu_buckets file segments addr) ≢ 0
        → (gnu_reach file segments addr ≡ Some (last + 1))
        ↔ IsLeastEnd file segments addr (greatest (gnu_buckets file segments addr)) last }
{}

/// In a file without these flaws each symbol that other objects may bind to is listed by each hash
/// table that is there, in the chain of the bucket that the hash of its name leads to.
pub fn each_table_lists()
    ensures sysv { (file : List ℕ) (i : ℕ) (s : RawSym) (t : SysvTable) → symbol_flaw file ≡ None
        → slice_get (symbols_of file) i ≡ Some s → is_offerable i s ≡ true
        → sysv_in file (headers file) (dynamic_entries file) ≡ Some t
        → sysv_lists t (sysv_hash (name_in (file_strings file) s)) i ≡ true }
    ensures gnu { (file : List ℕ) (i : ℕ) (s : RawSym) (t : GnuTable) → symbol_flaw file ≡ None
        → slice_get (symbols_of file) i ≡ Some s → is_offerable i s ≡ true
        → gnu_in file (headers file) (dynamic_entries file) ≡ Some t
        → gnu_lists t (gnu_hash (name_in (file_strings file) s)) i ≡ true }
{}

/// In a table whose chains end, a symbol is in the chain from another on exactly where it stands in
/// the list that is that chain.
pub fn chain_is_list()
    ensures { (chains list : List ℕ) (at i : ℕ)
        → ends_in (length chains) chains at ≡ true
        → IsChain chains at list
        → (is_in_chain chains at i ≡ true) ↔ (list_any (λ j. j == i) list ≡ true) }
{}
