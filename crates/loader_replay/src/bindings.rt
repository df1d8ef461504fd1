//! What all references of a run bind to.
//!
//! System V gABI, Symbol Table and Shared Object Dependencies. Bindings are said in
//! `specs/Bindings.antt` of `load_model`.

ghost use Rattle.std.specs.Prelude.{◌≡◌, ◌<◌, ◌∷◌, ◌++◌, [], All, IfOk, IsSome, OnOk, Some, length, map};
ghost use Rattle.load_model.specs.Bindings.{IsBindOver, all_binds, bind_of, binds_of_object, may_copy, offered_by, symbol_at};
ghost use Rattle.load_model.specs.Opening.{AreFew};
ghost use Rattle.load_model.specs.Runs.{IsRunOver};
ghost use Rattle.loader_replay.specs.Binding.{binds_at, object_symbol_count};

use byte_view::constants::STT_OBJECT;
use load_model::{Bind, Class, Face, List, Offers, Run, Sym, is_shared};
use path_text::NoMemory;
use scope_lookup::Binder;
use std::alloc::Global;

/// What the references of a run bind to, by object, symbol and class.
///
/// `index` tells of each face what binds to it. The global list is gone through once for each name,
/// version and class. Takes memory for what is found there, and for the bindings.
pub fn binds_of<F: Offers>(
    alloc: Global,
    faces: &[Face],
    index: &[F],
    run: &Run,
) -> Result<List<Bind>, NoMemory>
    requires run { IsRunOver faces.now run.now }
    requires few { AreFew faces.now }
    requires index { map F.offered index.now ≡ map offered_by faces.now }
    ensures binds { IfOk result (λ binds. binds ≡ all_binds faces.now run.now) }
    ensures over { IfOk result (λ binds. All (IsBindOver faces.now run.now) binds) }
{
    let mut binder = Binder::new(alloc, faces, index, run);
    let mut binds = List::new(alloc);
    for obj in 0..run.objs.as_slice().len() as u32 {
        add_object(&mut binder, obj, &mut binds)?;
    }
    Ok(binds)
}

/// Adds what the references of an object bind to.
fn add_object<F: Offers>(
    binder: &mut Binder<'_, F>,
    obj: u32,
    binds: &mut List<Bind>,
) -> Result<(), NoMemory>
    requires obj { obj < length binder.old.run.objs }
    ensures binds { OnOk result (binds.new
        ≡ binds.old ++ binds_of_object binder.old.faces binder.old.run obj) }
    ensures same { binder.new ≡ binder.old }
{
    for sym in 1..object_symbol_count(binder, obj) {
        add_symbol(binder, obj, sym, binds)?;
    }
    Ok(())
}

/// Adds what a symbol binds to in each class in which it is a reference.
fn add_symbol<F: Offers>(
    binder: &mut Binder<'_, F>,
    obj: u32,
    sym: u32,
    binds: &mut List<Bind>,
) -> Result<(), NoMemory>
    requires obj { obj < length binder.old.run.objs }
    requires sym { IsSome (symbol_at binder.old.faces binder.old.run obj sym) }
    ensures binds { OnOk result (binds.new
        ≡ binds.old ++ binds_at binder.old.faces binder.old.run obj sym) }
    ensures same { binder.new ≡ binder.old }
{
    let symbol = &binder.face_of(obj).syms.as_slice()[sym as usize];
    if is_shared(symbol.binding) {
        add_reference(binder, obj, sym, Class::Call, binds)?;
        if may_copy(obj, symbol) {
            add_reference(binder, obj, sym, Class::Copy, binds)?;
        }
        add_reference(binder, obj, sym, Class::Plain, binds)?;
    }
    Ok(())
}

/// Adds what a symbol binds to in a class.
fn add_reference<F: Offers>(
    binder: &mut Binder<'_, F>,
    obj: u32,
    sym: u32,
    class: Class,
    binds: &mut List<Bind>,
) -> Result<(), NoMemory>
    requires obj { obj < length binder.old.run.objs }
    requires sym { IsSome (symbol_at binder.old.faces binder.old.run obj sym) }
    ensures binds { OnOk result (binds.new
        ≡ binds.old ++ bind_of binder.old.faces binder.old.run obj sym class ∷ []) }
    ensures same { binder.new ≡ binder.old }
{
    let to = binder.bind(obj, sym, class)?;
    binds.push(Bind {
        obj,
        sym,
        class,
        to,
    })
}

/// How many symbols an object has.
fn object_symbol_count<F: Offers>(binder: &Binder<'_, F>, obj: u32) -> u32
    requires { obj < length binder.now.run.objs }
    ensures { result ≡ object_symbol_count binder.now.faces binder.now.run obj }
{
    binder.face_of(obj).syms.as_slice().len() as u32
}

/// Whether a symbol of this object may be a copy of another object's: a variable that the program
/// defines.
fn may_copy(obj: u32, symbol: &Sym) -> bool
    ensures { result ≡ may_copy obj symbol.now }
{
    obj == 0 && symbol.defined && symbol.kind == STT_OBJECT
}
