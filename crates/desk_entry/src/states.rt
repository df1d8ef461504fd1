//! What the lines so far said, and what one line more says, as `specs/States.antt` says.

ghost use Rattle.std.specs.Prelude.{◌≡◌, OnOk, Some};
ghost use Rattle.desk_entry.specs.Lines.{entry, group};
ghost use Rattle.desk_entry.specs.States.{Goes, TakesText, nothing_said, with_entry};

use crate::entries::Pair;
use crate::lines::{entry_of, group_of, is_quiet};
use crate::reading::DeskFault;
use load_model::{List, Name, NoMemory};
use std::alloc::Global;
use text_sets::TextSet;

/// What the lines so far said.
#[derive(Drop)]
pub(crate) struct State {
    pub place: Place,
    /// The names of the groups so far.
    pub groups: TextSet,
    /// The keys of the group so far.
    pub keys: TextSet,
    /// The entries of the first group.
    pub pairs: List<Pair>,
}

/// Where a line stands: before the first group, in it, or behind it.
#[derive(Clone, Copy, PartialEq, Eq)]
pub(crate) enum Place {
    Outside,
    First,
    Later,
}

impl State {
    pub(crate) fn new(alloc: Global) -> State
        ensures { result ≡ nothing_said }
    {
        State {
            place: Place::Outside,
            groups: TextSet::new(alloc),
            keys: TextSet::new(alloc),
            pairs: List::new(alloc),
        }
    }

    /// Takes the line of this text and this number, if it may stand here.
    pub(crate) fn take(&mut self, alloc: Global, number: u32, text: &[u8]) -> Result<(), DeskFault>
        ensures { TakesText self.old number text.now result self.new }
    {
        if is_quiet(text) {
            return Ok(());
        }
        if let Some(name) = group_of(text) {
            return self.begin_group(alloc, number, name);
        }
        match entry_of(text) {
            Some((key, value)) => self.add_entry(alloc, number, key, value),
            None => Err(DeskFault::Line(number)),
        }
    }

    fn begin_group(&mut self, alloc: Global, number: u32, name: &[u8]) -> Result<(), DeskFault>
        ensures { Goes self.old number (Some (group name.now)) result self.new }
    {
        if self.place == Place::Outside {
            if name != b"Desktop Entry".as_slice() {
                return Err(DeskFault::Line(number));
            }
            self.place = Place::First;
        } else {
            if self.groups.contains(name) {
                return Err(DeskFault::TwoGroups(number));
            }
            self.place = Place::Later;
        }
        self.keys = TextSet::new(alloc);
        match self.groups.add(alloc, name) {
            Ok(()) => Ok(()),
            Err(_) => Err(DeskFault::NoMemory),
        }
    }

    fn add_entry(
        &mut self,
        alloc: Global,
        number: u32,
        key: &[u8],
        value: &[u8],
    ) -> Result<(), DeskFault>
        ensures { Goes self.old number (Some (entry key.now value.now)) result self.new }
    {
        if self.place == Place::Outside {
            return Err(DeskFault::Line(number));
        }
        if self.keys.contains(key) {
            return Err(DeskFault::TwoKeys(number));
        }
        match self.note_entry(alloc, key, value) {
            Ok(()) => Ok(()),
            Err(_) => Err(DeskFault::NoMemory),
        }
    }

    /// Notes the key, and in the first group the entry.
    fn note_entry(&mut self, alloc: Global, key: &[u8], value: &[u8]) -> Result<(), NoMemory>
        ensures { OnOk result (self.new ≡ with_entry self.old key.now value.now) }
    {
        self.keys.add(alloc, key)?;
        if self.place == Place::First {
            let key = Name::from_bytes(alloc, key)?;
            let value = Name::from_bytes(alloc, value)?;
            self.pairs.push(Pair { key, value })?;
        }
        Ok(())
    }
}
