//! Where objects are written. Definitions: `specs/Places.antt`.

ghost use Rattle.std.specs.Prelude.{◌≡◌, ◌++◌, IfOk, OnOk, length, map, zip};
ghost use Rattle.std.specs.Option.{option_map};
ghost use Rattle.object_changes.specs.Names.{file_name_of};
ghost use Rattle.build_texts.specs.Places.{lib_place, library_place, object_places, placed_by, program_places, tool_place};

use app_config::{Config, Program};
use lib_closure::Split;
use load_model::{List, Name, NoMemory, Obj, Run};
use name_layout::{Layout, Libs};
use std::alloc::Global;

/// The libraries of a split by their identities, and the names of those that are bundled.
#[derive(Drop)]
pub struct Libraries<'a> {
    pub libs: Libs<'a>,
    pub layout: &'a Layout,
}

impl<'a> Libraries<'a> {
    /// The libraries of a split.
    pub fn of(
        alloc: Global,
        split: &'a Split,
        layout: &'a Layout,
    ) -> Result<Libraries<'a>, NoMemory>
        ensures split { IfOk result (λ libraries. libraries.libs.split.now ≡ split.now) }
        ensures layout { IfOk result (λ libraries. libraries.layout.now ≡ layout.now) }
    {
        let libs = Libs::of(alloc, split)?;
        Ok(Libraries { libs, layout })
    }

    /// The place of the library of this identity. One that is not bundled lies on the host.
    fn place(&self, alloc: Global, id: &Name) -> Result<Name, NoMemory>
        ensures { IfOk result (λ place. place
            ≡ library_place self.now.libs.split.now self.now.layout.now id.now) }
    {
        match self.name(id) {
            Some(name) => lib_place(alloc, name),
            None => Name::from_bytes(alloc, b"host"),
        }
    }

    /// The name of the bundled library of this identity.
    fn name(&self, id: &Name) -> Option<&'a Name>
        ensures { option_map (λ name. name.now) result
            ≡ file_name_of self.now.libs.split.now self.now.layout.now id.now }
    {
        match self.libs.bundled.place(id.as_bytes()) {
            Some(number) => self.layout.libs.as_slice().get(number),
            None => None,
        }
    }
}

/// The places of the objects of all load lists, whose programs are written at these places.
pub fn all_places(
    alloc: Global,
    libraries: &Libraries<'_>,
    runs: &[Run],
    programs: &[Name],
) -> Result<List<List<Name>>, NoMemory>
    requires { length programs.now ≡ length runs.now }
    ensures { IfOk result (λ places. places
        ≡ map (placed_by libraries.now.libs.split.now libraries.now.layout.now)
        (zip runs.now programs.now)) }
{
    let mut places = List::new(alloc);
    'runs: for (number, run) in runs.iter().enumerate() {
        let objs = run.objs.as_slice();
        places.push(object_places(alloc, libraries, &programs[number], objs)?)?;
    }
    Ok(places)
}

/// The places of the objects of a load list, whose program is written at a place.
#[tactic(auto, unfolding(crate::specs::Places::object_places))]
fn object_places(
    alloc: Global,
    libraries: &Libraries<'_>,
    place: &Name,
    objs: &[Obj],
) -> Result<List<Name>, NoMemory>
    ensures { IfOk result (λ places. places ≡ object_places libraries.now.libs.split.now
        libraries.now.layout.now place.now objs.now) }
{
    let mut places = List::new(alloc);
    let Some((_program, others)) = objs.split_first() else {
        return Ok(places);
    };
    places.push(place.copy(alloc)?)?;
    push_libraries(alloc, &mut places, libraries, others)?;
    Ok(places)
}

/// Adds the places of libraries.
fn push_libraries(
    alloc: Global,
    places: &mut List<Name>,
    libraries: &Libraries<'_>,
    objs: &[Obj],
) -> Result<(), NoMemory>
    ensures { OnOk result (places.new ≡ places.old
        ++ map (λ (o : Obj). library_place libraries.now.libs.split.now libraries.now.layout.now
        o.id) objs.now) }
{
    'objs: for obj in objs {
        places.push(libraries.place(alloc, &obj.id)?)?;
    }
    Ok(())
}

/// Where the programs of a configuration are written.
#[tactic(auto, unfolding(crate::specs::Places::program_places))]
pub fn program_places(alloc: Global, config: &Config) -> Result<List<Name>, NoMemory>
    ensures { IfOk result (λ places. places ≡ program_places config.now) }
{
    let mut places = List::new(alloc);
    places.push(Name::from_bytes(alloc, b"AppRun")?)?;
    push_tools(alloc, &mut places, config.tools.as_slice())?;
    Ok(places)
}

/// Adds the places of tools.
fn push_tools(alloc: Global, places: &mut List<Name>, tools: &[Program]) -> Result<(), NoMemory>
    ensures { OnOk result (places.new ≡ places.old ++ map tool_place tools.now) }
{
    'tools: for tool in tools {
        places.push(tool_place(alloc, tool)?)?;
    }
    Ok(())
}

fn tool_place(alloc: Global, tool: &Program) -> Result<Name, NoMemory>
    ensures { IfOk result (λ place. place ≡ tool_place tool.now) }
{
    placed(alloc, b"usr/bin/", &tool.name)
}

/// Where the bundled library of a name is written.
pub fn lib_place(alloc: Global, name: &Name) -> Result<Name, NoMemory>
    ensures { IfOk result (λ place. place ≡ lib_place name.now) }
{
    placed(alloc, b"usr/lib/", name)
}

fn placed(alloc: Global, folder: &[u8], name: &Name) -> Result<Name, NoMemory>
    ensures { IfOk result (λ place. place ≡ folder.now ++ name.now) }
{
    let mut place = Vec::from_slice(alloc, folder)?;
    place.extend_from_slice(name.as_bytes())?;
    Name::from_bytes(alloc, place.as_slice())
}
