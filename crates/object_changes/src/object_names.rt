//! The names of objects in the directory, found by their identities.
//!
//! Said in `specs/Names.antt`.

use lib_closure::{Seen, Split};
use load_model::{Name, NoMemory};
use name_layout::{Layout, Libs};
use std::alloc::Global;

/// The libraries of a split, found by their identities, and the file names of those that are
/// bundled.
#[derive(Drop)]
pub struct ObjectNames<'a> {
    pub libs: Libs<'a>,
    pub layout: &'a Layout,
}

impl<'a> ObjectNames<'a> {
    ghost use Rattle.std.specs.Prelude.{◌≡◌, IfOk};
    ghost use Rattle.std.specs.Option.{option_map};
    ghost use Rattle.lib_closure.specs.Seen.{standing};
    ghost use Rattle.object_changes.specs.Names.{file_name_of, goes_to_bundled, key_name_of, name_beside, new_name_of};
    ghost use Rattle.object_changes.specs.OfNames.{of_names};

    /// The names of these libraries.
    pub fn of(
        alloc: Global,
        split: &'a Split,
        layout: &'a Layout,
    ) -> Result<ObjectNames<'a>, NoMemory>
        ensures split { IfOk result (λ names. names.libs.split.now ≡ split.now) }
        ensures layout { IfOk result (λ names. names.layout.now ≡ layout.now) }
    {
        let libs = Libs::of(alloc, split)?;
        Ok(ObjectNames { libs, layout })
    }

    /// The name of the object of this identity.
    #[tactic(auto, unfolding(crate::specs::Names::new_name_of))]
    pub fn name_of(&self, id: &[u8]) -> Option<&'a Name>
        ensures { option_map (λ name. name.now) result
            ≡ of_names new_name_of self.now id.now }
    {
        match self.file_name_of(id) {
            Some(name) => Some(name),
            None => self.key_of(id),
        }
    }

    /// The file name of the bundled library of this identity.
    fn file_name_of(&self, id: &[u8]) -> Option<&'a Name>
        ensures { option_map (λ name. name.now) result
            ≡ of_names file_name_of self.now id.now }
    {
        match self.libs.bundled.place(id) {
            Some(place) => self.layout.libs.as_slice().get(place),
            None => None,
        }
    }

    /// The key of the host library of this identity.
    fn key_of(&self, id: &[u8]) -> Option<&'a Name>
        ensures { option_map (λ name. name.now) result
            ≡ of_names key_name_of self.now id.now }
    {
        match self.libs.host_with(id) {
            Some(host) => Some(&host.name),
            None => None,
        }
    }

    /// The name of the object of this number in the same load list.
    #[tactic(auto, unfolding(crate::specs::Names::name_beside))]
    pub fn name_beside(&self, seen: &Seen<'a>, number: u32) -> Option<&'a Name>
        ensures { option_map (λ name. name.now) result
            ≡ of_names name_beside self.now (standing seen.now) number }
    {
        match seen.in_same_list(number) {
            Some(target) => self.name_of(target.obj.id.as_bytes()),
            None => None,
        }
    }

    /// Whether the object of this number in the same load list is a bundled library.
    #[tactic(auto, unfolding(crate::specs::Names::goes_to_bundled))]
    pub fn goes_to_bundled(&self, seen: &Seen<'a>, number: u32) -> bool
        ensures { result ≡ goes_to_bundled self.now.libs.split.now self.now.layout.now
            (standing seen.now) number }
    {
        match seen.in_same_list(number) {
            Some(target) => self.libs.lib_with(target.obj.id.as_bytes()).is_some(),
            None => false,
        }
    }
}
