//! What a reference binds to.
//!
//! System V gABI, Symbol Table. Bindings are said in `specs/Bindings.antt` of `load_model`.

ghost use Rattle.std.specs.Prelude.{◌≡◌, ◌<◌, IsSome, length, map};
ghost use Rattle.load_model.specs.Bindings.{binds_itself, bound_to, is_copy, is_own, offered_by, symbol_at};
ghost use Rattle.load_model.specs.Opening.{AreFew};
ghost use Rattle.load_model.specs.Runs.{IsRunOver};

use crate::lookup::first_in_scope;
use crate::wanting::Wanted;
use byte_view::constants::{STV_HIDDEN, STV_INTERNAL, STV_PROTECTED};
use load_model::{Class, Def, Face, Offers, Run, Sym};

/// What the reference of this class binds to, the symbol of index `sym` of the object of number
/// `obj`, if to anything.
///
/// `index` tells of each face what binds to it. Looks at each object of the scope at most once, and
/// takes no memory.
pub fn bind<F: Offers>(
    faces: &[Face],
    index: &[F],
    run: &Run,
    obj: u32,
    sym: u32,
    class: Class,
) -> Option<Def>
    requires run { IsRunOver faces.now run.now }
    requires few { AreFew faces.now }
    requires index { map F.offered index.now ≡ map offered_by faces.now }
    requires obj { obj < length run.now.objs }
    requires sym { IsSome (symbol_at faces.now run.now obj sym) }
    ensures { result ≡ bound_to faces.now run.now obj sym class }
{
    let face = run.face_of(faces, obj);
    let symbol = &face.syms.as_slice()[sym as usize];
    if binds_itself(class, symbol) {
        return Some(Def { obj, sym });
    }
    let itself = if face.symbolic { Some(obj) } else { None };
    first_in_scope(index, run, obj, itself, Wanted::by(symbol, class))
}

/// Whether a reference binds to its own symbol, whatever the scope has.
pub fn binds_itself(class: Class, symbol: &Sym) -> bool
    ensures { result ≡ binds_itself class symbol.now }
{
    !is_copy(class) && is_own(symbol)
}

/// Whether it is the class of copies into the program.
pub fn is_copy(class: Class) -> bool
    ensures { result ≡ is_copy class }
{
    match class {
        Class::Copy => true,
        Class::Plain | Class::Call => false,
    }
}

/// Whether no other object's symbol takes the place of this one.
fn is_own(symbol: &Sym) -> bool
    ensures { result ≡ is_own symbol.now }
{
    symbol.visibility == STV_HIDDEN
        || symbol.visibility == STV_INTERNAL
        || symbol.defined && symbol.visibility == STV_PROTECTED
}
