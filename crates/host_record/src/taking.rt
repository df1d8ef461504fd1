//! What the lines so far said, and taking one line more, as `specs/Reached.antt` says.

ghost use Rattle.std.specs.Prelude.{◌≡◌, IfOk, OnOk};
ghost use Rattle.std.specs.List.{list_all};
ghost use Rattle.host_record.specs.Reached.{Adds, AgreesWith, IsStart, Takes, TakesText};
ghost use Rattle.host_record.specs.Said.{is_declared, lib_names, may_follow, needs_declared, numbered_look, section_of, with_need};
ghost use Rattle.host_record.specs.declared.lines.Line.TheVariants.{Ask as AskLine, Declare as DeclareLine, Require as RequireLine};

use crate::line_reading::line_of;
use crate::lines::{Line, Lookup, Section};
use crate::names::Names;
use crate::records::{Look, RecLib, RecVersion};
use load_model::{List, Name, NoMemory};
use path_text::Abs;
use std::alloc::Global;

/// What the lines so far said.
#[derive(Drop)]
pub(crate) struct Reading {
    pub section: Section,
    pub machine: u16,
    pub interps: List<Abs>,
    /// The names of the libraries.
    pub names: Names,
    pub libs: Vec<RecLib>,
    pub versions: List<RecVersion>,
    pub looks: List<Look>,
}

impl Reading {
    pub(crate) fn new(alloc: Global) -> Reading
        ensures { IsStart result }
    {
        Reading {
            section: Section::Start,
            machine: 0,
            interps: List::new(alloc),
            names: Names::new(alloc),
            libs: Vec::new(alloc),
            versions: List::new(alloc),
            looks: List::new(alloc),
        }
    }

    /// Takes the line of this text, if it is one and may come next.
    pub(crate) fn take_text(&mut self, alloc: Global, text: &[u8]) -> Result<bool, NoMemory>
        requires { AgreesWith self.now }
        ensures { IfOk result (λ fine. TakesText self.old text.now fine self.new) }
    {
        match line_of(alloc, text)? {
            Some(line) => self.take(alloc, line),
            None => Ok(false),
        }
    }

    /// Takes the next line, if it may come next.
    fn take(&mut self, alloc: Global, line: Line) -> Result<bool, NoMemory>
        requires { AgreesWith self.now }
        ensures { IfOk result (λ fine. Takes self.old line fine self.new) }
    {
        if !follows(self.section, &line) {
            return Ok(false);
        }
        self.section = section_of(&line);
        match line {
            Line::Head => Ok(true),
            Line::Machine(machine) => {
                self.machine = machine;
                Ok(true)
            }
            Line::Interp(path) => {
                self.interps.push(path)?;
                Ok(true)
            }
            Line::Declare(name) => self.declare(alloc, name),
            Line::Need(name) => {
                add_need(&mut self.libs, name)?;
                Ok(true)
            }
            Line::Require(lib, version) => self.require(&lib, version),
            Line::Ask(lookup) => self.ask(lookup),
            Line::End => Ok(needs_declared(&self.names, self.libs.as_slice())),
        }
    }

    fn declare(&mut self, alloc: Global, name: Name) -> Result<bool, NoMemory>
        requires { AgreesWith self.now }
        ensures { IfOk result (λ fine. Adds self.old (DeclareLine name) fine self.new) }
    {
        if self.names.has(name.as_bytes()) {
            return Ok(false);
        }
        self.names.add(alloc, name.as_bytes())?;
        let lib = RecLib {
            name,
            needs: List::new(alloc),
        };
        match self.libs.push(lib) {
            Ok(()) => Ok(true),
            Err(_) => Err(NoMemory),
        }
    }

    fn require(&mut self, lib: &Name, version: Name) -> Result<bool, NoMemory>
        requires { AgreesWith self.now }
        ensures { IfOk result (λ fine. Adds self.old (RequireLine lib.now version) fine self.new) }
    {
        let Some(number) = self.names.number(lib.as_bytes()) else {
            return Ok(false);
        };
        let Ok(lib) = u32::try_from(number) else {
            return Err(NoMemory);
        };
        self.versions.push(RecVersion { lib, version })?;
        Ok(true)
    }

    fn ask(&mut self, lookup: Lookup) -> Result<bool, NoMemory>
        requires { AgreesWith self.now }
        ensures { IfOk result (λ fine. Adds self.old (AskLine lookup) fine self.new) }
    {
        let Some(number) = self.names.number(lookup.lib.as_bytes()) else {
            return Ok(false);
        };
        let Ok(lib) = u32::try_from(number) else {
            return Err(NoMemory);
        };
        self.looks.push(numbered_look(lib, lookup))?;
        Ok(true)
    }
}

/// The look with the number of its library in place of the name.
fn numbered_look(lib: u32, lookup: Lookup) -> Look
    ensures { result ≡ numbered_look lib lookup }
{
    let Lookup {
        lib: _,
        name,
        version,
        call,
        answer,
    } = lookup;
    Look {
        lib,
        name,
        version,
        call,
        answer,
    }
}

fn section_of(line: &Line) -> Section
    ensures { result ≡ section_of line.now }
{
    match line {
        Line::Head => Section::Title,
        Line::Machine(_) => Section::Target,
        Line::Interp(_) => Section::Interps,
        Line::Declare(_) | Line::Need(_) => Section::Libs,
        Line::Require(_, _) => Section::Versions,
        Line::Ask(_) => Section::Looks,
        Line::End => Section::Done,
    }
}

/// Whether the line may come in or after the section.
fn follows(section: Section, line: &Line) -> bool
    ensures { result ≡ may_follow section line.now }
{
    match section {
        Section::Start => matches!(line, Line::Head),
        Section::Title => matches!(line, Line::Machine(_)),
        Section::Target => matches!(line, Line::Interp(_)),
        Section::Interps => matches!(
            line,
            Line::Interp(_) | Line::Declare(_) | Line::Require(_, _) | Line::Ask(_) | Line::End
        ),
        Section::Libs => matches!(
            line,
            Line::Declare(_) | Line::Need(_) | Line::Require(_, _) | Line::Ask(_) | Line::End
        ),
        Section::Versions => matches!(line, Line::Require(_, _) | Line::Ask(_) | Line::End),
        Section::Looks => matches!(line, Line::Ask(_) | Line::End),
        Section::Done => false,
    }
}

/// Adds a need to the last library.
fn add_need(libs: &mut Vec<RecLib>, need: Name) -> Result<(), NoMemory>
    ensures { OnOk result (libs.new.items ≡ with_need libs.old.items need) }
{
    if let Some(lib) = libs.last_mut() {
        lib.needs.push(need)?;
    }
    Ok(())
}

/// Whether each need is the name of a library.
fn needs_declared(names: &Names, libs: &[RecLib]) -> bool
    requires { names.now ≡ lib_names libs.now }
    ensures { result ≡ needs_declared libs.now }
{
    for lib in libs {
        if !are_declared(names, lib.needs.as_slice()) {
            return false;
        }
    }
    true
}

/// Whether each need is one of the names.
fn are_declared(names: &Names, needs: &[Name]) -> bool
    ensures { result ≡ list_all (is_declared names.now) needs.now }
{
    needs.iter().all(|need| names.has(need.as_bytes()))
}
