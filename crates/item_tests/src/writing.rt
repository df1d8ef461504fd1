//! Writing files through a window, over the forms in memory.

use crate::samples::{BYTES, items, write_into};
use appdir_files::CopyStop;
use load_model::{Name, NoMemory};
use path_text::Abs;
use ports::{MemOut, MemTree, Tree};
use std::alloc::Global;

// The numbers of the calls that are to fail: none, `read_at` of the tree, `begin`, `append`
// and `finish` of the folder.
const FOLDER: [u8; 3] = [1, 2, 3];

// A tree with files of no byte, of seven and of eight.
fn tree(alloc: Global) -> Result<MemTree, NoMemory> {
    let mut tree = MemTree::new(alloc)?;
    for (path, bytes) in [
        (b"/none".as_slice(), b"".as_slice()),
        (b"/seven".as_slice(), BYTES),
        (b"/eight".as_slice(), b"01234567".as_slice()),
    ] {
        let Ok(at) = Abs::read(alloc, path) else {
            return Err(NoMemory);
        };
        if tree
            .add(&at, &Name::from_bytes(alloc, path)?, bytes)
            .is_err()
        {
            return Err(NoMemory);
        }
    }
    Ok(tree)
}

// Writes the items through a window of this length, and gives how many are finished, and the stop.
fn written<T: Tree>(
    alloc: Global,
    tree: &mut T,
    out: &mut MemOut,
    length: usize,
) -> Result<(usize, Result<(), CopyStop>), NoMemory> {
    if length == 0 {
        return Err(NoMemory);
    }
    let Ok(place) = Abs::read(alloc, b"/out") else {
        return Err(NoMemory);
    };
    let items = items(alloc, tree)?;
    let mut window = vec![in alloc; 0; length]?;
    let stop = write_into(tree, out, &place, items.as_slice(), window.as_mut_slice())?;
    Ok((out.finished().len(), stop))
}

#[test]
fn whole_files_through_windows(rt: HostRuntime) -> Result<(), NoMemory> {
    for length in [1, 7, 8, 64] {
        let mut tree = tree(rt.alloc())?;
        let mut out = MemOut::new(rt.alloc())?;
        let (count, stop) = written(rt.alloc(), &mut tree, &mut out, length)?;
        assert!(rt; stop.is_ok());
        assert!(rt; count == 5);
        let want = [
            (b"a".as_slice(), true, b"".as_slice()),
            (b"b".as_slice(), true, BYTES),
            (b"c".as_slice(), true, b"01234567".as_slice()),
            (b"d".as_slice(), false, BYTES),
            (b"e".as_slice(), false, b"".as_slice()),
        ];
        for (file, (path, mark, bytes)) in out.finished().iter().zip(want) {
            assert!(rt; file.path.as_str().as_bytes() == path);
            assert!(rt; file.executable == mark);
            assert!(rt; file.bytes.as_bytes() == bytes);
        }
    }
    Ok(())
}

// With a window of seven bytes there are four pieces: one of the seven, two of the eight, and one
// of the bytes at hand. The fifth append that is to fail never comes.
#[test]
fn no_piece_is_empty(rt: HostRuntime) -> Result<(), NoMemory> {
    let mut tree = tree(rt.alloc())?;
    let mut out = MemOut::new(rt.alloc())?;
    out.fail_at(2, 5)?;
    tree.fail_at(1, 4)?;
    let (count, stop) = written(rt.alloc(), &mut tree, &mut out, 7)?;
    assert!(rt; stop.is_ok());
    assert!(rt; count == 5);
    Ok(())
}

#[test]
fn a_failing_call_at_each_item(rt: HostRuntime) -> Result<(), NoMemory> {
    for method in FOLDER {
        for (call, before, append) in [(1, 0, 1), (2, 1, 2), (3, 2, 2), (4, 3, 3), (5, 4, 5)] {
            let mut tree = tree(rt.alloc())?;
            let mut out = MemOut::new(rt.alloc())?;
            out.fail_at(method, call)?;
            let (count, stop) = written(rt.alloc(), &mut tree, &mut out, 7)?;
            let want = if method == 2 { append } else { before };
            assert!(rt; count == want);
            assert!(rt; (stop == Err(CopyStop::Write)) == (want < 5));
        }
    }
    for (call, want) in [(1, 1), (2, 2), (3, 2)] {
        let mut tree = tree(rt.alloc())?;
        let mut out = MemOut::new(rt.alloc())?;
        tree.fail_at(1, call)?;
        let (count, stop) = written(rt.alloc(), &mut tree, &mut out, 7)?;
        assert!(rt; stop == Err(CopyStop::Read));
        assert!(rt; count == want);
    }
    Ok(())
}
