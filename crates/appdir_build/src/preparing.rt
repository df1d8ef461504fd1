//! The changes of all programs and bundled libraries of what is decided.

ghost use Rattle.std.specs.Prelude.{◌≡◌, ◌&&◌, IfOk};
ghost use Rattle.std.specs.List.{list_all};
ghost use Rattle.std.specs.Str.{is_utf8};
ghost use Rattle.path_text.specs.Path.{has_nul};
ghost use Rattle.elf_rewrite.specs.NewFile.{is_name_text};
ghost use Rattle.build_plan.specs.Deciding.{IsSafePlan};
ghost use Rattle.appdir_build.specs.Writing.{IsPrepared};

use app_config::Config;
use build_plan::Plan;
use lib_closure::Split;
use load_model::NoMemory;
use name_layout::Layout;
use object_changes::{Changes, change_all};
use std::alloc::Global;

/// The changes of what is decided. Names that can stand in no string table are told as want of
/// memory: keys and opened names of files with a face are no such names.
pub fn changes_of(alloc: Global, config: &Config, plan: &Plan) -> Result<Changes, NoMemory>
    requires { IsSafePlan config.now plan.now }
    ensures { IfOk result (λ changes. IsPrepared plan.now changes) }
{
    if !are_name_texts(&plan.split, &plan.layout) {
        return Err(NoMemory);
    }
    change_all(
        alloc,
        plan.loads.table.faces(),
        plan.loads.runs.as_slice(),
        &plan.split,
        &plan.layout,
    )
}

/// Whether the names of host libraries and of bundled libraries can stand in string tables.
fn are_name_texts(split: &Split, layout: &Layout) -> bool
    ensures { result ≡ (list_all (λ host. is_name_text host.name) split.now.hosts
        && list_all is_name_text layout.now.libs) }
{
    are_keys(split) && are_names(layout)
}

fn are_keys(split: &Split) -> bool
    ensures { result ≡ list_all (λ host. is_name_text host.name) split.now.hosts }
{
    split
        .hosts
        .as_slice()
        .iter()
        .all(|host| is_name_text(host.name.as_bytes()))
}

fn are_names(layout: &Layout) -> bool
    ensures { result ≡ list_all is_name_text layout.now.libs }
{
    layout
        .libs
        .as_slice()
        .iter()
        .all(|name| is_name_text(name.as_bytes()))
}

fn is_name_text(text: &[u8]) -> bool
    ensures { result ≡ is_name_text text.now }
{
    is_text(text) && !has_nul(text)
}

fn is_text(bytes: &[u8]) -> bool
    ensures { result ≡ is_utf8 bytes.now }
{
    match str::from_utf8(bytes) {
        Ok(_) => true,
        Err(_) => false,
    }
}

fn has_nul(text: &[u8]) -> bool
    ensures { result ≡ has_nul text.now }
{
    text.contains(&0)
}
