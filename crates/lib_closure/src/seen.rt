//! Objects where they stand in load lists, as `specs/Objects.antt` says.

ghost use Rattle.std.specs.Prelude.{◌≡◌, Some, map, vec_items};
ghost use Rattle.version_files.specs.Files.{files_of_run};
ghost use Rattle.lib_closure.specs.Objects.{occurrence_at};

use load_model::{Face, Obj, Run};

/// A load list over a table of faces, with the object that the file of each ask names.
#[derive(Drop)]
pub struct LoadList<'a> {
    pub faces: &'a [Face],
    pub run: &'a Run,
    pub files: Vec<Vec<Option<u32>>>,
    ghost files_are: { map vec_items files.items ≡ files_of_run faces.now run.now },
}

/// An object of a load list.
#[derive(Clone, Copy)]
pub struct Seen<'a> {
    pub list: &'a LoadList<'a>,
    pub number: u32,
    pub obj: &'a Obj,
    pub face: &'a Face,
    ghost stands: { occurrence_at list.now.faces.now list.now.run.now number
        ≡ Some (record {
          faces = list.now.faces.now;
          run = list.now.run.now;
          number = number;
          obj = obj.now;
          face = face.now;
        }) },
}

impl<'a> LoadList<'a> {
    ghost use Rattle.std.specs.Option.{option_map};
    ghost use Rattle.lib_closure.specs.Seen.{standing};

    /// The object of this number.
    #[tactic(auto, unfolding(crate::specs::Objects::occurrence_at))]
    pub fn seen(&'a self, number: u32) -> Option<Seen<'a>>
        ensures { option_map standing result
            ≡ occurrence_at self.now.faces.now self.now.run.now number }
    {
        let Some(obj) = self.run.objs.as_slice().get(number as usize) else {
            return None;
        };
        let Some(face) = self.faces.get(obj.face as usize) else {
            return None;
        };
        Some(Seen {
            list: self,
            number,
            obj,
            face,
        })
    }
}

impl<'a> Seen<'a> {
    ghost use Rattle.std.specs.Option.{option_map};
    ghost use Rattle.lib_closure.specs.Objects.{files_named, in_same_list, key_held, own_targets};
    ghost use Rattle.lib_closure.specs.Seen.{standing};

    /// The object of this number in the same load list.
    pub fn in_same_list(&self, number: u32) -> Option<Seen<'a>>
        ensures { option_map standing result ≡ in_same_list (standing self.now) number }
    {
        self.list.seen(number)
    }

    /// The numbers of the objects that its needs went to.
    pub fn targets(&self) -> &'a [u32]
        ensures { result.now ≡ own_targets (standing self.now) }
    {
        match self.list.run.targets.as_slice().get(self.number as usize) {
            Some(targets) => targets.as_slice(),
            None => &[],
        }
    }

    /// The numbers of the objects that the files of its asks name.
    pub fn files(&self) -> &'a [Option<u32>]
        ensures { result.now ≡ files_named (standing self.now) }
    {
        match self.list.files.get(self.number as usize) {
            Some(files) => files.as_slice(),
            None => &[],
        }
    }

    /// Its key: its soname, or else the last part of the path under which it was found.
    #[tactic(auto, unfolding(load_model::specs::SameNames::key_of))]
    pub fn key(&self) -> &'a [u8]
        ensures { result.now ≡ key_held (standing self.now) }
    {
        match &self.face.soname {
            Some(soname) => soname.as_bytes(),
            None => self.obj.path.base(),
        }
    }
}
