//! Which items are a list of files.

use appdir_files::{Body, Item, ListStop, list};
use load_model::{List, NoMemory, Text};
use path_text::Rel;
use std::alloc::Global;

fn item(alloc: Global, path: &[u8]) -> Result<Item, NoMemory> {
    let Ok(path) = Rel::read(alloc, path) else {
        return Err(NoMemory);
    };
    Ok(Item {
        path,
        executable: false,
        body: Body::Bytes(Text::from_bytes(alloc, b"")?),
    })
}

// What is refused of two items, the second of them a data file: the number of its refusal and the
// target.
fn refused(alloc: Global, first: &[u8], second: &[u8]) -> Result<Option<(u8, Rel)>, NoMemory> {
    let mut items = List::new(alloc);
    items.push(item(alloc, first)?)?;
    items.push(item(alloc, second)?)?;
    if items.as_slice().len() != 2 {
        return Err(NoMemory);
    }
    match list(alloc, items, 1, 2) {
        Ok(_) => Ok(None),
        Err(ListStop::TargetInLib(path)) => Ok(Some((48, path))),
        Err(ListStop::TargetClash(path)) => Ok(Some((47, path))),
        Err(ListStop::NoMemory) => Err(NoMemory),
    }
}

#[test]
fn targets_that_are_refused(rt: HostRuntime) {
    let table = [
        (b"a".as_slice(), b"b".as_slice(), 0, b"".as_slice()),
        (b"a".as_slice(), b"a".as_slice(), 47, b"a".as_slice()),
        (
            b"usr/lib".as_slice(),
            b"usr/lib/x/y".as_slice(),
            47,
            b"usr/lib/x/y".as_slice(),
        ),
        (
            b"usr/lib/x/y".as_slice(),
            b"usr/lib".as_slice(),
            47,
            b"usr/lib".as_slice(),
        ),
        (
            b"AppRun".as_slice(),
            b"usr/lib/libc.so.6".as_slice(),
            48,
            b"usr/lib/libc.so.6".as_slice(),
        ),
        (
            b"usr/lib".as_slice(),
            b"usr/lib/x".as_slice(),
            48,
            b"usr/lib/x".as_slice(),
        ),
        (
            b"usr/lib/x".as_slice(),
            b"usr/lib/x/y".as_slice(),
            47,
            b"usr/lib/x/y".as_slice(),
        ),
        (
            b"usr/lib/x".as_slice(),
            b"usr/lib64/x".as_slice(),
            0,
            b"".as_slice(),
        ),
        (
            b"AppRun".as_slice(),
            b"usr/lib/x/y".as_slice(),
            0,
            b"".as_slice(),
        ),
        (b"ab".as_slice(), b"a/b".as_slice(), 0, b"".as_slice()),
        (b"a".as_slice(), b"ab".as_slice(), 0, b"".as_slice()),
    ];
    for (first, second, number, target) in table {
        match refused(rt.alloc(), first, second) {
            Ok(None) => assert!(rt; number == 0),
            Ok(Some((found, path))) => {
                assert!(rt; found == number);
                assert!(rt; path.as_str().as_bytes() == target);
            }
            Err(_) => assert!(rt; false),
        }
    }
}
