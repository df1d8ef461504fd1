//! A load list that is gone through, with what is found once for each of its objects.

ghost use Rattle.std.specs.Prelude.{◌≡◌, IfOk};
ghost use Rattle.host_list.specs.Recording.{host_at, host_number, host_numbers};

use crate::scopes::scopes_in;
use lib_closure::HostLib;
use load_model::{Face, Name, NoMemory, Run};
use std::alloc::Global;

/// A run over faces, with the host libraries of its build: the number of the host library that each
/// object is, and the scope of each.
#[derive(Drop)]
pub(crate) struct Place<'a> {
    pub faces: &'a [Face],
    pub run: &'a Run,
    pub hosts: &'a [HostLib],
    pub numbers: Vec<Option<u32>>,
    pub scopes: Vec<Vec<u32>>,
}

impl<'a> Place<'a> {
    ghost use Rattle.std.specs.Prelude.{◌<◌, length};
    ghost use Rattle.load_model.specs.Runs.{IsRunOver};
    ghost use Rattle.load_model.specs.Scopes.{scope_of};
    ghost use Rattle.host_list.specs.Places.{IsPlaceInRun, IsPlaceOf};

    pub(crate) fn of(
        alloc: Global,
        faces: &'a [Face],
        run: &'a Run,
        hosts: &'a [HostLib],
    ) -> Result<Place<'a>, NoMemory>
        requires { IsRunOver faces.now run.now }
        ensures { IfOk result (IsPlaceOf faces.now run.now hosts.now) }
    {
        let numbers = numbers_in(alloc, hosts, run)?;
        let scopes = scopes_in(alloc, faces, run)?;
        Ok(Place {
            faces,
            run,
            hosts,
            numbers,
            scopes,
        })
    }

    /// The scope of the object of this number.
    pub(crate) fn scope(&self, obj: u32) -> &[u32]
        requires place { IsPlaceInRun self.now }
        requires obj { obj < length self.now.run.now.objs }
        ensures { result.now ≡ scope_of self.now.faces.now self.now.run.now obj }
    {
        self.scopes[obj as usize].as_slice()
    }
}

/// For each object of a run the number of the host library that it is.
#[tactic(auto, unfolding(crate::specs::Recording::host_numbers))]
fn numbers_in(alloc: Global, hosts: &[HostLib], run: &Run) -> Result<Vec<Option<u32>>, NoMemory>
    ensures { IfOk result (λ numbers. numbers.items
        ≡ host_numbers hosts.now run.now) }
{
    let mut numbers = Vec::new(alloc);
    for obj in run.objs.as_slice() {
        let number = number_of(hosts, &obj.id)?;
        if numbers.push(number).is_err() {
            return Err(NoMemory);
        }
    }
    Ok(numbers)
}

/// The number of the host library of an identity. One past 32 bits is answered as want of memory.
fn number_of(hosts: &[HostLib], id: &Name) -> Result<Option<u32>, NoMemory>
    ensures { IfOk result (λ number. number ≡ host_number hosts.now id.now) }
{
    match place_of(hosts, id) {
        Some(place) => match u32::try_from(place) {
            Ok(number) => Ok(Some(number)),
            Err(_) => Err(NoMemory),
        },
        None => Ok(None),
    }
}

fn place_of(hosts: &[HostLib], id: &Name) -> Option<usize>
    ensures { result ≡ host_number hosts.now id.now }
{
    hosts
        .iter()
        .position(|host| id.as_bytes() == host.id.as_bytes())
}

/// The number of the host library that an object is.
pub(crate) fn host_at(numbers: &[Option<u32>], obj: u32) -> Option<u32>
    ensures { result ≡ host_at numbers.now obj }
{
    match numbers.get(obj as usize) {
        Some(number) => *number,
        None => None,
    }
}
