//! Lists, and copies of what they hold.

use load_model::{Ask, List, Name, NoMemory, Ver};

#[test]
fn pushes_in_order(rt: HostRuntime) {
    let mut list = List::new(rt.alloc());
    for value in [3u8, 1, 2] {
        assert!(rt; list.push(value).is_ok());
    }
    assert!(rt; list.as_slice() == [3, 1, 2].as_slice());
}

#[test]
fn copies_are_the_same(rt: HostRuntime) -> Result<(), NoMemory> {
    let alloc = rt.alloc();
    let mut needs = List::new(alloc);
    needs.push(Name::from_bytes(alloc, b"libc.so.6".as_slice())?)?;
    let needs = needs.copy(alloc)?;
    assert!(rt; needs.as_slice().len() == 1);
    assert!(rt; needs.as_slice()[0].as_bytes() == b"libc.so.6".as_slice());
    let file = needs.as_slice()[0].copy(alloc)?;
    let name = Name::from_bytes(alloc, b"GLIBC_2.34".as_slice())?;
    let ask = Ask {
        file,
        name,
        weak: true,
    };
    let ask = ask.copy(alloc)?;
    assert!(rt; ask.weak && ask.name.as_bytes() == b"GLIBC_2.34".as_slice());
    let version = Ver::Named {
        index: 7,
        name: ask.name,
    };
    assert!(rt; matches!(version.copy(alloc)?, Ver::Named { index: 7, .. }));
    Ok(())
}
