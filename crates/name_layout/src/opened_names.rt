//! The names that programs open, found by name and by root.
//!
//! Said in `specs/Openings.antt`.

ghost use Rattle.std.specs.Prelude.{◌≡◌, All, IfOk, filter, is_some, length, map};
ghost use Rattle.std.specs.Option.{option_map};
ghost use Rattle.name_layout.specs.Opened.{as_opening};
ghost use Rattle.name_layout.specs.Openings.{bundled_openings, lib_with, openings};
ghost use Rattle.name_layout.specs.Sets.{HasNames, HasPlaces};

use crate::libs::Libs;
use crate::name_sets::NameSet;
use crate::opened::{Opened, openings};
use crate::opened_places::{name_places, root_places};
use crate::places::Places;
use lib_closure::Split;
use load_model::{Name, NoMemory, Run};
use std::alloc::Global;

/// The opened names of all programs, and those of bundled libraries, with the host list.
#[derive(Drop)]
pub struct OpenedNames<'a> {
    pub runs: &'a [Run],
    pub names: &'a [Name],
    pub libs: Libs<'a>,
    pub all: Vec<Opened<'a>>,
    /// Where roots stand first among all.
    pub roots: Places,
    /// Those of bundled libraries.
    pub bundled: Vec<Opened<'a>>,
    /// Where names stand first among those of bundled libraries.
    pub given: Places,
    pub listed: NameSet,
    ghost all_are: { map as_opening all.items ≡ openings runs.now },
    ghost roots_are: { HasPlaces roots (map (λ o. o.root) (openings runs.now)) },
    ghost bundled_are: { map as_opening bundled.items
        ≡ bundled_openings libs.split.now runs.now },
    ghost given_are: { HasPlaces given
        (map (λ o. o.name) (bundled_openings libs.split.now runs.now)) },
    ghost listed_are: { HasNames listed names.now },
}

impl<'a> OpenedNames<'a> {
    ghost use Rattle.std.specs.List.{find};
    ghost use Rattle.std.specs.Str.{bytes_eq};

    /// The opened names of these runs.
    pub fn of(
        alloc: Global,
        runs: &'a [Run],
        split: &'a Split,
        names: &'a [Name],
    ) -> Result<OpenedNames<'a>, NoMemory>
        requires { All (λ run. length run.roots ≡ length run.opens) runs.now }
        ensures runs { IfOk result (λ opened. opened.runs.now ≡ runs.now) }
        ensures split { IfOk result (λ opened. opened.libs.split.now ≡ split.now) }
        ensures names { IfOk result (λ opened. opened.names.now ≡ names.now) }
    {
        let libs = Libs::of(alloc, split)?;
        let all = openings(alloc, runs)?;
        let roots = root_places(alloc, all.as_slice())?;
        let bundled = bundled_openings(alloc, &libs, all.as_slice())?;
        let given = name_places(alloc, bundled.as_slice())?;
        let listed = NameSet::of(alloc, names)?;
        Ok(OpenedNames {
            runs,
            names,
            libs,
            all,
            roots,
            bundled,
            given,
            listed,
        })
    }

    /// The first opened name that went to an object.
    pub fn first_of_root(&self, root: &[u8]) -> Option<Opened<'a>>
        ensures { option_map as_opening result
            ≡ find (λ e. bytes_eq root.now e.root) (openings self.now.runs.now) }
    {
        match self.roots.place(root) {
            Some(place) => self.all.get(place).copied(),
            None => None,
        }
    }

    /// The first opened name of a bundled library that is this one.
    pub fn first_of_name(&self, name: &[u8]) -> Option<Opened<'a>>
        ensures { option_map as_opening result ≡ find (λ e. bytes_eq name.now e.name)
            (bundled_openings self.now.libs.split.now self.now.runs.now) }
    {
        match self.given.place(name) {
            Some(place) => self.bundled.get(place).copied(),
            None => None,
        }
    }
}

/// The opened names of bundled libraries.
fn bundled_openings<'a>(
    alloc: Global,
    libs: &Libs<'a>,
    all: &[Opened<'a>],
) -> Result<Vec<Opened<'a>>, NoMemory>
    ensures { IfOk result (λ bundled. map as_opening bundled.items
        ≡ filter (λ o. is_some (lib_with libs.now.split.now o.root)) (map as_opening all.now)) }
{
    let mut bundled = Vec::new(alloc);
    for opened in all {
        if libs.lib_with(opened.root.as_bytes()).is_some() {
            match bundled.push(*opened) {
                Ok(()) => {}
                Err(_) => return Err(NoMemory),
            }
        }
    }
    Ok(bundled)
}
