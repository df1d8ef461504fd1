//! The objects of a build, found by their identities, and what each of them is.
//!
//! Kinds are said in `specs/Kinds.antt`.

ghost use Rattle.std.specs.Prelude.{◌≡◌, ℕ, List, IfOk, map};
ghost use Rattle.std.specs.List.{list_any};
ghost use Rattle.std.specs.Str.{bytes_eq};
ghost use Rattle.lib_closure.specs.Firsts.{AreFirsts};
ghost use Rattle.lib_closure.specs.Objects.{all_objects, first_places, program_files, programs_of};
ghost use Rattle.lib_closure.specs.Seen.{standing};
ghost use Rattle.listed_runs.specs.Fitting.{is_on_list};

use crate::firsts::Firsts;
use crate::lists::{all_seen, programs_seen};
use crate::seen::{LoadList, Seen};
use load_model::{Face, Name, NoMemory, Run};
use path_text::Abs;
use std::alloc::Global;
use text_sets::TextSet;

/// All objects of the load lists of a build, by program and load order, with the names of the host
/// list.
#[derive(Drop)]
pub struct Build<'a> {
    pub faces: &'a [Face],
    pub runs: &'a [Run],
    pub names: &'a [Name],
    pub all: Vec<Seen<'a>>,
    pub programs: Vec<Seen<'a>>,
    /// The programs, each file once.
    pub files: Firsts<'a>,
    /// All objects, each at its first place.
    pub firsts: Firsts<'a>,
    pub listed: TextSet,
    ghost all_are: { map standing all.items ≡ all_objects faces.now runs.now },
    ghost programs_are: { map standing programs.items ≡ programs_of faces.now runs.now },
    ghost files_are: { AreFirsts files (program_files faces.now runs.now) },
    ghost firsts_are: { AreFirsts firsts (first_places faces.now runs.now) },
    ghost listed_are: { (name : List ℕ) → list_any (bytes_eq name) listed
        ≡ is_on_list names.now name },
}

/// The names of a host list.
fn listed_of(alloc: Global, names: &[Name]) -> Result<TextSet, NoMemory>
    ensures { IfOk result (λ listed. (name : List ℕ) → list_any (bytes_eq name) listed
        ≡ is_on_list names.now name) }
{
    let mut listed = TextSet::new(alloc);
    for name in names {
        listed.add(alloc, name.as_bytes())?;
    }
    Ok(listed)
}

impl<'a> Build<'a> {
    ghost use Rattle.std.specs.Prelude.{All, ◌<◌, ◌^◌, length};
    ghost use Rattle.std.specs.Option.{option_map};
    ghost use Rattle.lib_closure.specs.Build.{list_of, lists_over};
    ghost use Rattle.lib_closure.specs.Clashes.{path_of_object, program_beside, program_like};
    ghost use Rattle.lib_closure.specs.Kinds.{has_listed_key, is_bundled, is_bundled_at, is_host_library, is_program};
    ghost use Rattle.lib_closure.specs.Objects.{first_place_of};

    /// The objects of these load lists, which are those of the runs.
    pub fn of(
        alloc: Global,
        faces: &'a [Face],
        runs: &'a [Run],
        names: &'a [Name],
        lists: &'a [LoadList<'a>],
    ) -> Result<Build<'a>, NoMemory>
        requires lists { map list_of lists.now ≡ lists_over faces.now runs.now }
        requires few { All (λ list. length list.run.now.objs < 2 ^ 32) lists.now }
        ensures faces { IfOk result (λ build. build.faces.now ≡ faces.now) }
        ensures runs { IfOk result (λ build. build.runs.now ≡ runs.now) }
        ensures names { IfOk result (λ build. build.names.now ≡ names.now) }
    {
        let all = all_seen(alloc, lists)?;
        let programs = programs_seen(alloc, lists)?;
        let files = Firsts::of(alloc, programs.as_slice())?;
        let firsts = Firsts::of(alloc, all.as_slice())?;
        let listed = listed_of(alloc, names)?;
        Ok(Build {
            faces,
            runs,
            names,
            all,
            programs,
            files,
            firsts,
            listed,
        })
    }

    /// The first place of an object.
    pub fn first_place_of(&self, seen: &Seen<'a>) -> Seen<'a>
        ensures { standing result ≡ first_place_of self.now.faces.now self.now.runs.now
            (standing seen.now) }
    {
        match self.firsts.find(seen.obj.id.as_bytes()) {
            Some(first) => first,
            None => *seen,
        }
    }

    /// The path of its first place.
    pub fn path_of(&self, seen: &Seen<'a>) -> &'a Abs
        ensures { result.now ≡ path_of_object self.now.faces.now self.now.runs.now
            self.now.names.now (standing seen.now) }
    {
        &self.first_place_of(seen).obj.path
    }

    /// Whether it is the file of a program.
    pub fn is_program(&self, seen: &Seen<'a>) -> bool
        ensures { result ≡ is_program self.now.faces.now self.now.runs.now self.now.names.now
            (standing seen.now) }
    {
        self.files.has(seen.obj.id.as_bytes())
    }

    /// Whether its key is on the host list.
    pub fn has_listed_key(&self, seen: &Seen<'a>) -> bool
        ensures { result ≡ has_listed_key self.now.faces.now self.now.runs.now self.now.names.now
            (standing seen.now) }
    {
        self.listed.contains(self.first_place_of(seen).key())
    }

    /// Whether it is a host library.
    #[tactic(auto, unfolding(crate::specs::Kinds::is_host_library))]
    pub fn is_host_library(&self, seen: &Seen<'a>) -> bool
        ensures { result ≡ is_host_library self.now.faces.now self.now.runs.now self.now.names.now
            (standing seen.now) }
    {
        !self.is_program(seen) && self.has_listed_key(seen)
    }

    /// Whether it is a bundled library.
    #[tactic(auto, unfolding(crate::specs::Kinds::is_bundled))]
    pub fn is_bundled(&self, seen: &Seen<'a>) -> bool
        ensures { result ≡ is_bundled self.now.faces.now self.now.runs.now self.now.names.now
            (standing seen.now) }
    {
        !self.is_program(seen) && !self.has_listed_key(seen)
    }

    /// Whether the object of this number in the same load list is bundled.
    pub fn is_bundled_at(&self, seen: &Seen<'a>, number: u32) -> bool
        ensures { result ≡ is_bundled_at self.now.faces.now self.now.runs.now self.now.names.now
            (standing seen.now) number }
    {
        match seen.in_same_list(number) {
            Some(target) => self.is_bundled(&target),
            None => false,
        }
    }

    /// The first program that is the same file.
    pub fn program_like(&self, seen: &Seen<'a>) -> Option<Seen<'a>>
        ensures { option_map standing result ≡ program_like self.now.faces.now self.now.runs.now
            self.now.names.now (standing seen.now) }
    {
        self.files.find(seen.obj.id.as_bytes())
    }

    /// The same of the object of this number in the same load list.
    pub fn program_beside(&self, seen: &Seen<'a>, number: u32) -> Option<Seen<'a>>
        ensures { option_map standing result ≡ program_beside self.now.faces.now self.now.runs.now
            self.now.names.now (standing seen.now) number }
    {
        match seen.in_same_list(number) {
            Some(target) => self.program_like(&target),
            None => None,
        }
    }
}
