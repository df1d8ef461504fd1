//! Why files are not written, by what stopped one of the last steps. Definitions:
//! `specs/Refusals.antt`.

ghost use Rattle.std.specs.Prelude.{◌≡◌};
ghost use Rattle.appdir_build.specs.Refusals.{stop_of_listing, stop_of_rewrite};

use appdir_files::ListStop;
use build_plan::BuildStop;
use elf_rewrite::RewriteStop;
use path_text::Abs;
use refusals::{FileRefusal, Refusal, RewriteRefusal};

pub fn stop_of_rewrite(path: Abs, stop: RewriteStop) -> BuildStop
    ensures { result ≡ stop_of_rewrite path stop }
{
    let refusal = match stop {
        RewriteStop::NoRoom => RewriteRefusal::NoRoom(path),
        RewriteStop::TableOverlap(a, b) => RewriteRefusal::TableOverlap(a, b, path),
        RewriteStop::TooManyHeaders => RewriteRefusal::TooManyHeaders(path),
        RewriteStop::TooLarge(len) => RewriteRefusal::TooLarge(path, len),
        RewriteStop::StringsTooLong => RewriteRefusal::StringsTooLong(path),
        RewriteStop::NoMemory => return BuildStop::NoMemory,
    };
    BuildStop::Refused(Refusal::Rewrite(refusal))
}

pub fn stop_of_listing(stop: ListStop) -> BuildStop
    ensures { result ≡ stop_of_listing stop }
{
    let refusal = match stop {
        ListStop::TargetInLib(path) => FileRefusal::TargetInLib(path),
        ListStop::TargetClash(path) => FileRefusal::TargetClash(path),
        ListStop::NoMemory => return BuildStop::NoMemory,
    };
    BuildStop::Refused(Refusal::Files(refusal))
}
