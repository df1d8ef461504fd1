//! Where the libraries of a record stand, by their names.

ghost use Rattle.std.specs.Prelude.{IfOk};
ghost use Rattle.host_meeting.specs.LibPlaces.{HasPlaces};

use host_list::{RecLib, Record};
use indexmap::IndexMap;
use load_model::{Name, NoMemory};
use std::alloc::Global;

/// A record, and for each name the number of the first library that has it.
#[derive(Drop)]
pub struct LibPlaces<'a> {
    pub rec: &'a Record,
    pub places: IndexMap<&'a [u8], usize>,
    ghost has_places: { HasPlaces places.entries rec.now.libs },
}

impl<'a> LibPlaces<'a> {
    ghost use Rattle.std.specs.Prelude.{◌≡◌, IfOk, position};
    ghost use Rattle.std.specs.List.{find};
    ghost use Rattle.std.specs.Option.{option_copied};
    ghost use Rattle.std.specs.Str.{bytes_eq};
    ghost use Rattle.host_list.specs.Meeting.{recorded_needs};

    /// Takes time in proportion to the libraries.
    pub fn of(alloc: Global, rec: &'a Record) -> Result<LibPlaces<'a>, NoMemory>
        ensures { IfOk result (λ libs. libs.rec.now ≡ rec.now) }
    {
        let places = places_of(alloc, rec.libs.as_slice())?;
        Ok(LibPlaces { rec, places })
    }

    /// The number of the library of this name.
    pub fn place(&self, name: &'a Name) -> Option<usize>
        ensures { result ≡ position (λ lib. bytes_eq lib.name name.now) self.now.rec.now.libs }
    {
        self.places.get(&name.as_bytes()).copied()
    }

    /// The recorded needs of the library of this name.
    pub fn needs_of(&self, name: &'a Name) -> &'a [Name]
        ensures { result.now ≡ recorded_needs self.now.rec.now.libs name.now }
    {
        match self.lib_named(name) {
            Some(lib) => lib.needs.as_slice(),
            None => &[],
        }
    }

    fn lib_named(&self, name: &'a Name) -> Option<&'a RecLib>
        ensures { option_copied result
            ≡ find (λ lib. bytes_eq lib.name name.now) self.now.rec.now.libs }
    {
        match self.place(name) {
            Some(place) => self.rec.libs.as_slice().get(place),
            None => None,
        }
    }
}

/// The first place of each name. Places are added from the last to the first, so that of several
/// libraries of one name the first stays.
fn places_of<'a>(alloc: Global, libs: &'a [RecLib]) -> Result<IndexMap<&'a [u8], usize>, NoMemory>
    ensures { IfOk result (λ places. HasPlaces places.entries libs.now) }
{
    let mut places = IndexMap::new(alloc);
    let mut place = libs.len();
    'libs: while place > 0 {
        place -= 1;
        match places.insert(libs[place].name.as_bytes(), place) {
            Ok(_) => {}
            Err(_) => return Err(NoMemory),
        }
    }
    Ok(places)
}
