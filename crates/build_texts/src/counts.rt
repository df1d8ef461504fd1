//! How many references are reported, and how many of them bind. Definitions: `reported_binds` of
//! `specs/Texts.antt`, and `specs/Counting.antt`.

ghost use Rattle.std.specs.Prelude.{◌≡◌, ◌+◌, ◌∷◌, [], IfOk, OnOk, filter, length, zip};
ghost use Rattle.std.specs.List.{flat_map};
ghost use Rattle.bind_report.specs.Report.{is_host, object_place};
ghost use Rattle.build_texts.specs.Counting.{HasCounted, no_counts};
ghost use Rattle.build_texts.specs.Texts.{is_reported, reported_of};

use load_model::{Bind, List, Name, NoMemory, Replay};

/// How many references are reported, and how many of them bind.
#[derive(Drop)]
pub struct Counts {
    pub references: u32,
    pub bound: u32,
}

impl Counts {
    /// Those of all programs, whose objects have these places. More than have numbers are want of
    /// memory.
    pub fn of(replays: &[Replay], places: &[List<Name>]) -> Result<Counts, NoMemory>
        requires { length places.now ≡ length replays.now }
        ensures { IfOk result (λ counts. HasCounted no_counts counts
            (flat_map reported_of (zip replays.now places.now))) }
    {
        let mut counts = Counts {
            references: 0,
            bound: 0,
        };
        'programs: for (number, replay) in replays.iter().enumerate() {
            counts.add_all(replay.binds.as_slice(), places[number].as_slice())?;
        }
        Ok(counts)
    }

    /// Those of one program more.
    fn add_all(&mut self, binds: &[Bind], places: &[Name]) -> Result<(), NoMemory>
        ensures { OnOk result
            (HasCounted self.old self.new (filter (is_reported places.now) binds.now)) }
    {
        'binds: for bind in binds {
            self.add(*bind, places)?;
        }
        Ok(())
    }

    /// One more, unless an object of the host refers.
    fn add(&mut self, bind: Bind, places: &[Name]) -> Result<(), NoMemory>
        ensures { OnOk result
            (HasCounted self.old self.new (filter (is_reported places.now) (bind ∷ []))) }
    {
        if is_of_host(places, bind.obj) {
            return Ok(());
        }
        self.references = one_more(self.references)?;
        if bind.to.is_some() {
            self.bound = one_more(self.bound)?;
        }
        Ok(())
    }
}

/// Whether the place of an object is `host`.
fn is_of_host(places: &[Name], obj: u32) -> bool
    ensures { result ≡ is_host (object_place places.now obj) }
{
    match places.get(obj as usize) {
        Some(place) => place.as_bytes() == b"host".as_slice(),
        None => false,
    }
}

fn one_more(count: u32) -> Result<u32, NoMemory>
    ensures { IfOk result (λ more. more ≡ count + 1) }
{
    match count.checked_add(1) {
        Some(count) => Ok(count),
        None => Err(NoMemory),
    }
}
