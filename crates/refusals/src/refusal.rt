//! Why a command is refused, and the line that says it. Definitions: `specs/Lines.antt`.

ghost use Rattle.std.specs.Prelude.{◌≡◌, [], ◌∷◌, ◌++◌, IfOk, codes};
ghost use Rattle.std.specs.Fmt.{decimal};
ghost use Rattle.refusals.specs.Lines.{done_line, evidence, refusal_line, refusal_number, usage_text};

use crate::config_refusal::{ConfigRefusal, config_evidence, config_number};
use crate::file_refusal::{FileRefusal, file_evidence, file_number};
use crate::folder_refusal::{FolderRefusal, folder_evidence, folder_number};
use crate::load_refusal::{load_evidence, load_number};
use crate::name_refusal::{NameRefusal, name_evidence, name_number};
use crate::rewrite_refusal::{RewriteRefusal, rewrite_evidence, rewrite_number};
use crate::split_refusal::{SplitRefusal, split_evidence, split_number};
use load_model::{LoadRefusal, Text};
use path_text::{Abs, NoMemory};
use std::alloc::Global;

/// Why a command is not done, with the evidence.
#[derive(Drop)]
pub enum Refusal {
    /// There is no configuration that is understood.
    Config(ConfigRefusal),
    /// A program has no load list.
    Load(LoadRefusal),
    /// A build has no split.
    Split(SplitRefusal),
    /// A bundled library has no name.
    Names(NameRefusal),
    /// A file cannot get other names.
    Rewrite(RewriteRefusal),
    /// The items of an AppDir do not lie side by side.
    Files(FileRefusal),
    /// Files are not written.
    Folder(FolderRefusal),
}

/// The line for words of no shape.
pub fn usage_line() -> &'static [u8]
    ensures { result.now ≡ usage_text }
{
    b"usage: appdir quick PROGRAM OUT [NAME ..] | build CONFIG OUT | show PROGRAM [DIR ..] | host OUT [DIR ..] | verify CONFIG OUT | gen N\n"
}

/// The line that says a refusal.
pub fn refusal_text(alloc: Global, refusal: &Refusal) -> Result<Text, NoMemory>
    ensures { IfOk result (λ line. line ≡ refusal_line refusal.now) }
{
    let number = refusal_number(refusal);
    let evidence = evidence(alloc, refusal)?;
    numbered(alloc, number, evidence.as_bytes())
}

/// The line for a folder that holds files.
pub fn not_empty_text(alloc: Global, path: &Abs) -> Result<Text, NoMemory>
    ensures { IfOk result
        (λ line. line ≡ refusal_line (Refusal.Folder (FolderRefusal.NotEmpty path.now))) }
{
    let refusal = Refusal::Folder(FolderRefusal::NotEmpty(path.copy(alloc)?));
    refusal_text(alloc, &refusal)
}

/// `refused N: ` and what is said.
fn numbered(alloc: Global, number: u8, evidence: &[u8]) -> Result<Text, NoMemory>
    ensures { IfOk result (λ line. line
        ≡ codes "refused " ++ (decimal number ++ (codes ": " ++ (evidence.now ++ 10 ∷ [])))) }
{
    let front = format!(in alloc; "refused {number}: ")?;
    let mut line = Vec::from_slice(alloc, front.as_bytes())?;
    line.extend_from_slice(evidence)?;
    line.extend_from_slice(b"\n")?;
    Ok(Text::from_vec(line))
}

/// The number of a refusal.
fn refusal_number(refusal: &Refusal) -> u8
    ensures { result ≡ refusal_number refusal.now }
{
    match refusal {
        Refusal::Config(refusal) => config_number(refusal),
        Refusal::Load(refusal) => load_number(refusal),
        Refusal::Split(refusal) => split_number(refusal),
        Refusal::Names(refusal) => name_number(refusal),
        Refusal::Rewrite(refusal) => rewrite_number(refusal),
        Refusal::Files(refusal) => file_number(refusal),
        Refusal::Folder(refusal) => folder_number(refusal),
    }
}

/// What a refusal says.
fn evidence(alloc: Global, refusal: &Refusal) -> Result<Text, NoMemory>
    ensures { IfOk result (λ text. text ≡ evidence refusal.now) }
{
    match refusal {
        Refusal::Config(refusal) => config_evidence(alloc, refusal),
        Refusal::Load(refusal) => load_evidence(alloc, refusal),
        Refusal::Split(refusal) => split_evidence(alloc, refusal),
        Refusal::Names(refusal) => name_evidence(alloc, refusal),
        Refusal::Rewrite(refusal) => rewrite_evidence(alloc, refusal),
        Refusal::Files(refusal) => file_evidence(alloc, refusal),
        Refusal::Folder(refusal) => folder_evidence(alloc, refusal),
    }
}

/// The line for a whole AppDir: how many files it has, and how many libraries are bundled and
/// expected of the host.
pub fn done_text(
    alloc: Global,
    files: usize,
    bundled: usize,
    hosts: usize,
) -> Result<Text, NoMemory>
    ensures { IfOk result (λ line. line ≡ done_line files bundled hosts) }
{
    let line = format!(in alloc;
        "done: {files} files, {bundled} bundled, {hosts} host libraries\n"
    )?;
    Text::from_bytes(alloc, line.as_bytes())
}
