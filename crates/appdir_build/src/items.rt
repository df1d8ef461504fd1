//! The files of a directory, in the order in which they are written. Definitions:
//! `specs/Files.antt`.

ghost use Rattle.std.specs.Prelude.{◌≡◌, ◌∷◌, ◌++◌, [], List, IfOk, false};
ghost use Rattle.appdir_files.specs.declared.items.Item.{Item};
ghost use Rattle.host_checks.specs.Hosting.{record_place};
ghost use Rattle.appdir_build.specs.Files.{report_place};
ghost use Rattle.appdir_build.specs.Writing.{AreAllItems, all_items, listed_items, text_item};

use crate::writing::Written;
use appdir_files::{Body, Item};
use load_model::{List, NoMemory, Text};
use manifest::manifest_text;
use path_text::Rel;
use std::alloc::Global;

/// All files, in order: bundled libraries, tools, what lies beside them, three texts, and the main
/// program, which is the first of the programs. The manifest lists all but itself.
pub fn all_items(
    alloc: Global,
    written: Written,
    extras: List<Item>,
    record_bytes: Text,
    report: Text,
) -> Result<List<Item>, NoMemory>
    ensures { IfOk result (AreAllItems written extras record_bytes report) }
{
    let Written { programs, libs } = written;
    let mut tools = programs.into_vec();
    if tools.is_empty() {
        return Err(NoMemory);
    }
    let main = tools.remove(0);
    let front = front_items(libs, tools, extras)?;
    with_texts(alloc, front, record_bytes, report, main)
}

/// Libraries, tools, and what lies beside them.
fn front_items(
    libs: List<Item>,
    mut tools: Vec<Item>,
    extras: List<Item>,
) -> Result<List<Item>, NoMemory>
    ensures { IfOk result (λ items. items ≡ libs ++ (tools.items ++ extras)) }
{
    let mut items = libs.into_vec();
    let mut extras = extras.into_vec();
    tools.append(&mut extras)?;
    items.append(&mut tools)?;
    Ok(List::from_vec(items))
}

/// The files with the texts about the build.
fn with_texts(
    alloc: Global,
    front: List<Item>,
    record_bytes: Text,
    report: Text,
    main: Item,
) -> Result<List<Item>, NoMemory>
    ensures { IfOk result (λ items. items ≡ all_items front record_bytes report main) }
{
    let items = listed_items(alloc, front, record_bytes, report, main)?;
    let manifest = manifest_text(alloc, items.as_slice())?;
    let manifest = text_item(alloc, b"usr/share/appdir/files.txt", manifest)?;
    before_last(items, manifest)
}

/// The files that the manifest lists.
fn listed_items(
    alloc: Global,
    front: List<Item>,
    record_bytes: Text,
    report: Text,
    main: Item,
) -> Result<List<Item>, NoMemory>
    ensures { IfOk result (λ items. items ≡ listed_items front record_bytes report main) }
{
    let mut items = front;
    items.push(text_item(alloc, b"usr/share/appdir/host.txt", record_bytes)?)?;
    items.push(text_item(alloc, b"usr/share/appdir/bindings.txt", report)?)?;
    items.push(main)?;
    Ok(items)
}

/// The files with one more in front of the last.
fn before_last(items: List<Item>, more: Item) -> Result<List<Item>, NoMemory>
    ensures { (front : List Item) (last : Item) → items ≡ front ++ (last ∷ [])
        → IfOk result (λ all. all ≡ front ++ (more ∷ last ∷ [])) }
{
    let mut items = items.into_vec();
    let Some(last) = items.pop() else {
        return Err(NoMemory);
    };
    let mut items = List::from_vec(items);
    items.push(more)?;
    items.push(last)?;
    Ok(items)
}

fn text_item(alloc: Global, place: &[u8], text: Text) -> Result<Item, NoMemory>
    ensures { IfOk result (λ item. item ≡ text_item place.now text) }
{
    item(alloc, place, false, Body::Bytes(text))
}

/// A file at a place below the root.
pub fn item(alloc: Global, place: &[u8], executable: bool, body: Body) -> Result<Item, NoMemory>
    ensures { IfOk result (λ item. item
        ≡ record { path = place.now; executable = executable; body = body }) }
{
    match Rel::read(alloc, place) {
        Ok(path) => Ok(Item {
            path,
            executable,
            body,
        }),
        Err(_) => Err(NoMemory),
    }
}
