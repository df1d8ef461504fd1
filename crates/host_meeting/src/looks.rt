//! Whether looks find in the files of a host what is recorded.

ghost use Rattle.std.specs.Prelude.{◌≡◌, ◌<◌, IfOk, Some, length, map};
ghost use Rattle.std.specs.List.{AllByRecursion};
ghost use Rattle.std.specs.Option.{option_copied};
ghost use Rattle.answers.specs.First.{first_some};
ghost use Rattle.load_model.specs.Faces.{face_or_flaw};
ghost use Rattle.host_list.specs.Answers.{answer_in_face, answer_of, class_of};
ghost use Rattle.host_list.specs.Meeting.{is_answer, look_difference};
ghost use Rattle.host_record.specs.Canonical.{IsLookOver};
ghost use Rattle.host_meeting.specs.Files.{WhereFiles};

use crate::files::LibFile;
use crate::named::{NamedFile, named_files};
use host_list::{Answer, Difference, Look, Record};
use load_model::{Class, Name, NoMemory, Sym, Ver};
use std::alloc::Global;

/// The first look that finds another answer than is recorded.
pub fn look_difference<'a>(
    alloc: Global,
    rec: &'a Record,
    files: &[LibFile<'a>],
) -> Result<Option<Difference>, NoMemory>
    requires over { AllByRecursion (IsLookOver rec.now.libs) rec.now.looks }
    requires files { length files.now ≡ length rec.now.libs }
    ensures { IfOk result (λ found. WhereFiles rec.now files.now (λ setting world. found
        ≡ first_some (map (look_difference face_or_flaw setting world rec.now)
        rec.now.looks))) }
{
    let named = named_files(alloc, files)?;
    first_other(alloc, rec, named.as_slice())
}

/// The first look that finds another answer in these files.
fn first_other<'a>(
    alloc: Global,
    rec: &'a Record,
    named: &[NamedFile<'a>],
) -> Result<Option<Difference>, NoMemory>
    requires over { AllByRecursion (IsLookOver rec.now.libs) rec.now.looks }
    requires files { length named.now ≡ length rec.now.libs }
    ensures { IfOk result (λ found. WhereFiles rec.now (map (λ n. n.file) named.now)
        (λ setting world. found ≡ first_some
        (map (look_difference face_or_flaw setting world rec.now) rec.now.looks))) }
{
    for look in rec.looks.as_slice() {
        if let Some(difference) = other_answer(alloc, rec, named, look)? {
            return Ok(Some(difference));
        }
    }
    Ok(None)
}

/// Whether a look finds another answer than is recorded.
fn other_answer<'a>(
    alloc: Global,
    rec: &'a Record,
    named: &[NamedFile<'a>],
    look: &'a Look,
) -> Result<Option<Difference>, NoMemory>
    requires over { look.now.lib < length rec.now.libs }
    requires files { length named.now ≡ length rec.now.libs }
    ensures { IfOk result (λ found. WhereFiles rec.now (map (λ n. n.file) named.now)
        (λ setting world. found ≡ look_difference face_or_flaw setting world rec.now look.now)) }
{
    let answer = answer_in(alloc, &named[look.lib as usize], look)?;
    if is_answer(&look.answer, &answer) {
        return Ok(None);
    }
    let lib = rec.libs.as_slice()[look.lib as usize].name.copy(alloc)?;
    Ok(Some(answer_differs(alloc, lib, look, answer)?))
}

/// A look that finds another answer in this library.
fn answer_differs(
    alloc: Global,
    lib: Name,
    look: &Look,
    answer: Answer,
) -> Result<Difference, NoMemory>
    ensures { IfOk result (λ d. d ≡ Difference.AnswerDiffers lib look.now.name look.now.version
        (class_of look.now.call) look.now.answer answer) }
{
    let name = look.name.copy(alloc)?;
    let version = copy_of(alloc, &look.version)?;
    let recorded = copy_of_answer(alloc, &look.answer)?;
    let class = class_of(look.call);
    Ok(Difference::AnswerDiffers(lib, name, version, class, recorded, answer))
}

/// A call, or a plain reference.
fn class_of(call: bool) -> Class
    ensures { result ≡ class_of call }
{
    if call { Class::Call } else { Class::Plain }
}

fn copy_of(alloc: Global, version: &Option<Name>) -> Result<Option<Name>, NoMemory>
    ensures { IfOk result (λ copy. copy ≡ version.now) }
{
    match version {
        Some(version) => Ok(Some(version.copy(alloc)?)),
        None => Ok(None),
    }
}

fn copy_of_answer(alloc: Global, answer: &Answer) -> Result<Answer, NoMemory>
    ensures { IfOk result (λ copy. copy ≡ answer.now) }
{
    match answer {
        Answer::Nothing => Ok(Answer::Nothing),
        Answer::Plain => Ok(Answer::Plain),
        Answer::Version(version) => Ok(Answer::Version(version.copy(alloc)?)),
    }
}

/// Whether two answers are the same.
fn is_answer(recorded: &Answer, found: &Answer) -> bool
    ensures { result ≡ is_answer recorded.now found.now }
{
    match (recorded, found) {
        (Answer::Nothing, Answer::Nothing) => true,
        (Answer::Plain, Answer::Plain) => true,
        (Answer::Version(a), Answer::Version(b)) => a.as_bytes() == b.as_bytes(),
        _ => false,
    }
}

/// What a look finds in a file.
#[tactic(auto, unfolding(host_list::specs::Answers::answer_in_face))]
fn answer_in<'a>(alloc: Global, named: &NamedFile<'a>, look: &'a Look) -> Result<Answer, NoMemory>
    ensures { IfOk result (λ answer. answer ≡ answer_in_face named.now.file.face.now
        look.now.name look.now.version look.now.call) }
{
    let name = look.name.as_bytes();
    match named.offer(name, wanted_version(look), class_of(look.call)) {
        Some(symbol) => answer_of(alloc, symbol),
        None => Ok(Answer::Nothing),
    }
}

/// The name of the version that a look asks for, if any.
fn wanted_version(look: &Look) -> Option<&[u8]>
    ensures { option_copied result ≡ look.now.version }
{
    match &look.version {
        Some(version) => Some(version.as_bytes()),
        None => None,
    }
}

/// What it is to find a symbol: its version.
fn answer_of(alloc: Global, symbol: &Sym) -> Result<Answer, NoMemory>
    ensures { IfOk result (λ answer. answer ≡ answer_of (Some symbol.now)) }
{
    match &symbol.version {
        Ver::Local => Ok(Answer::Plain),
        Ver::Global => Ok(Answer::Plain),
        Ver::Named { index: _, name } => Ok(Answer::Version(name.copy(alloc)?)),
    }
}
