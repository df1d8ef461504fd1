//! What binds the references of a run, one after the other.
//!
//! System V gABI, Symbol Table and Shared Object Dependencies. Bindings are said in
//! `specs/Bindings.antt` of `load_model`, what is kept in `specs/Binders.antt`.

ghost use Rattle.std.specs.Prelude.{◌≡◌, ◌<◌, ◌++◌, IfOk, IfSome, IsSome, None, Some, length, map, slice_get};
ghost use Rattle.std.specs.Option.{option_to_list};
ghost use Rattle.load_model.specs.Bindings.{bound_to, offered_by, symbol_at};
ghost use Rattle.load_model.specs.LoadList.{up_to};
ghost use Rattle.load_model.specs.Opening.{AreFew, IsFew};
ghost use Rattle.load_model.specs.Runs.{IsRunOver, face_at};
ghost use Rattle.load_model.specs.Scopes.{local_of};
ghost use Rattle.scope_lookup.specs.Finding.{first_found_in, found_in_object};

use crate::binding::binds_itself;
use crate::lookup::{first_global, first_local, local_list, offer_at};
use crate::wanting::Wanted;
use indexmap::IndexMap;
use load_model::{Class, Def, Face, NoMemory, Offers, Run};
use std::alloc::Global;
use std::marker::Model;

/// What binds the references of a run. What one of them finds in the global list is kept for those
/// that want the same, whichever object they are of.
#[derive(Drop)]
pub struct Binder<'a, F: Offers> {
    faces: &'a [Face],
    index: &'a [F],
    run: &'a Run,
    /// The first offers of the global list, also that there is none, by what was wanted.
    kept: IndexMap<Wanted<'a>, Option<Def>>,
}

impl<'a, F: Offers> Model for Binder<'a, F> {
    ghost use Rattle.std.specs.Prelude.{map};
    ghost use Rattle.scope_lookup.specs.Binders.{BinderView, KeepsFound};

    ghost Value = { BinderView };

    ghost view = { λ b. record { faces = b.faces.now; run = b.run.now } };

    ghost invariant = { λ b. KeepsFound b.faces.now (map F.offered b.index.now) b.run.now
        b.kept.entries };
}

impl<'a, F: Offers> Binder<'a, F> {
    /// A binder that has found nothing yet; `index` tells of each face what binds to it.
    pub fn new(alloc: Global, faces: &'a [Face], index: &'a [F], run: &'a Run) -> Binder<'a, F>
        requires run { IsRunOver faces.now run.now }
        requires few { AreFew faces.now }
        requires index { map F.offered index.now ≡ map offered_by faces.now }
        ensures faces { result.faces ≡ faces.now }
        ensures run { result.run ≡ run.now }
    {
        Binder {
            faces,
            index,
            run,
            kept: IndexMap::new(alloc),
        }
    }

    /// What a loader sees of the object of number `obj`.
    pub fn face_of(&self, obj: u32) -> &'a Face
        requires { obj < length self.now.run.objs }
        ensures face { face_at self.now.faces self.now.run obj ≡ Some result.now }
        ensures few { IsFew result.now }
    {
        self.run.face_of(self.faces, obj)
    }

    /// What the reference of this class binds to, the symbol of index `sym` of the object of number
    /// `obj`, if to anything.
    ///
    /// The global list is gone through once for each name, version and class. A binder serves on
    /// where memory was refused.
    pub fn bind(&mut self, obj: u32, sym: u32, class: Class) -> Result<Option<Def>, NoMemory>
        requires obj { obj < length self.old.run.objs }
        requires sym { IsSome (symbol_at self.old.faces self.old.run obj sym) }
        ensures bound { IfOk result
            (λ to. to ≡ bound_to self.old.faces self.old.run obj sym class) }
        ensures same { self.new ≡ self.old }
    {
        let face = self.run.face_of(self.faces, obj);
        let symbol = &face.syms.as_slice()[sym as usize];
        if binds_itself(class, symbol) {
            return Ok(Some(Def { obj, sym }));
        }
        let itself = if face.symbolic { Some(obj) } else { None };
        self.first_in_scope(obj, itself, Wanted::by(symbol, class))
    }

    /// The first offer of the scope of an object; `itself` is the object where it is symbolic.
    fn first_in_scope(
        &mut self,
        obj: u32,
        itself: Option<u32>,
        wanted: Wanted<'a>,
    ) -> Result<Option<Def>, NoMemory>
        requires obj { obj < length self.old.run.objs }
        requires itself { IfSome itself (λ k. k < length self.old.run.objs) }
        ensures first { IfOk result (λ first. first
            ≡ first_found_in (map offered_by self.old.faces) self.old.run wanted.entry
            (option_to_list itself ++ (up_to self.old.run.global
            ++ local_of self.old.run (slice_get self.old.run.objs obj)))) }
        ensures same { self.new ≡ self.old }
    {
        if let Some(number) = itself {
            if let Some(def) = offer_at(self.index, self.run, number, wanted) {
                return Ok(Some(def));
            }
        }
        if let Some(def) = self.first_global(itself, wanted)? {
            return Ok(Some(def));
        }
        let numbers = local_list(self.run, obj);
        Ok(first_local(self.index, self.run, numbers, itself, wanted))
    }

    /// The first offer of the global list. It is looked for once, and then kept.
    fn first_global(
        &mut self,
        itself: Option<u32>,
        wanted: Wanted<'a>,
    ) -> Result<Option<Def>, NoMemory>
        requires looked { IfSome itself (λ k. found_in_object (map offered_by self.old.faces)
            self.old.run wanted k ≡ None) }
        ensures first { IfOk result (λ first. first
            ≡ first_found_in (map offered_by self.old.faces) self.old.run wanted.entry
            (up_to self.old.run.global)) }
        ensures same { self.new ≡ self.old }
    {
        if let Some(first) = self.kept.get(&wanted).copied() {
            return Ok(first);
        }
        let first = first_global(self.index, self.run, itself, wanted);
        match self.kept.insert(wanted, first) {
            Ok(_) => Ok(first),
            Err(_) => Err(NoMemory),
        }
    }
}
