//! Items that the tests write, and how they are written.

ghost use Rattle.std.specs.Prelude.{◌≡◌, ◌<◌, All, IfOk, OnOk, Option, length};
ghost use Rattle.appdir_files.specs.Writing.{IsBodyProbed, IsProbed};
ghost use Rattle.load_model.specs.World.{World};
ghost use Rattle.ports.specs.View.{OnlyReads};

use appdir_files::{Body, CopyStop, Item, write_all};
use load_model::{List, NoMemory, Text};
use path_text::{Abs, Rel};
use ports::{Found, OutDir, Tree};
use std::alloc::Global;

/// The bytes of a file, and of an item that is at hand.
pub const BYTES: &[u8] = b"0123456";

/// Five items: copies of the three files, and bytes of seven and of none.
pub fn items<T: Tree>(alloc: Global, tree: &mut T) -> Result<List<Item>, NoMemory>
    ensures { IfOk result (All (IsProbed (T.seen tree.new).told)) }
{
    let mut items = List::new(alloc);
    add_copies(alloc, &mut items, tree)?;
    add_bytes(alloc, &mut items, b"d", BYTES)?;
    add_bytes(alloc, &mut items, b"e", b"")?;
    Ok(items)
}

/// Opens the folder, and writes the items into it.
pub fn write_into<T: Tree, O: OutDir>(
    tree: &mut T,
    out: &mut O,
    place: &Abs,
    items: &[Item],
    window: &mut [u8],
) -> Result<Result<(), CopyStop>, NoMemory>
    requires room { 0 < length window.old }
    requires probed { All (IsProbed (T.seen tree.old).told) items.now }
{
    match out.root(place) {
        Ok(_) => Ok(write_all(tree, out, items, window)),
        Err(_) => Err(NoMemory),
    }
}

/// Adds copies of the three files.
fn add_copies<T: Tree>(alloc: Global, items: &mut List<Item>, tree: &mut T) -> Result<(), NoMemory>
    ensures { OnOk result (All (IsProbed (T.seen tree.old).told) items.old
        → All (IsProbed (T.seen tree.new).told) items.new) }
{
    add_copy(alloc, items, tree, b"/none", b"a")?;
    add_copy(alloc, items, tree, b"/seven", b"b")?;
    add_copy(alloc, items, tree, b"/eight", b"c")?;
    Ok(())
}

/// Adds an item that copies the file at a path of the tree.
fn add_copy<T: Tree>(
    alloc: Global,
    items: &mut List<Item>,
    tree: &mut T,
    from: &[u8],
    to: &[u8],
) -> Result<(), NoMemory>
    ensures { OnOk result (All (IsProbed (T.seen tree.old).told) items.old
        → All (IsProbed (T.seen tree.new).told) items.new) }
{
    let body = copy_of(alloc, tree, from)?;
    add(alloc, items, to, true, body)?;
    Ok(())
}

/// The body that copies the file at a path of the tree.
fn copy_of<T: Tree>(alloc: Global, tree: &mut T, path: &[u8]) -> Result<Body, NoMemory>
    ensures probed { IfOk result (IsBodyProbed (T.seen tree.old).told) }
    ensures only_reads { OnlyReads (T.seen tree.old) (T.seen tree.new) }
{
    let Ok(from) = Abs::read(alloc, path) else {
        return Err(NoMemory);
    };
    match tree.probe(alloc, &from) {
        Ok(Found::File { len, .. }) => Ok(Body::Copy { from, len }),
        _ => Err(NoMemory),
    }
}

/// Adds an item of these bytes.
fn add_bytes(alloc: Global, items: &mut List<Item>, to: &[u8], bytes: &[u8]) -> Result<(), NoMemory>
    ensures { OnOk result ((told : Option World) → All (IsProbed told) items.old
        → All (IsProbed told) items.new) }
{
    let text = Text::from_bytes(alloc, bytes)?;
    add(alloc, items, to, false, Body::Bytes(text))?;
    Ok(())
}

/// Adds an item.
fn add(
    alloc: Global,
    items: &mut List<Item>,
    to: &[u8],
    executable: bool,
    body: Body,
) -> Result<(), NoMemory>
    ensures { OnOk result ((told : Option World) → IsBodyProbed told body
        → All (IsProbed told) items.old → All (IsProbed told) items.new) }
{
    items.push(item(alloc, to, executable, body)?)?;
    Ok(())
}

fn item(alloc: Global, path: &[u8], executable: bool, body: Body) -> Result<Item, NoMemory>
    ensures { IfOk result (λ item. item.body ≡ body) }
{
    match Rel::read(alloc, path) {
        Ok(path) => Ok(Item {
            path,
            executable,
            body,
        }),
        Err(_) => Err(NoMemory),
    }
}
