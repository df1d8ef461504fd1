//! Which files generated trees have, and how long each is. The lengths are worked out by hand from
//! the layout of made objects.

use elf_make::make_tree;
use load_model::NoMemory;
use path_text::Abs;
use ports::{Found, MemTree, Tree};
use std::alloc::Global;

/// A generated tree of a size that trees may have.
fn tree_of(alloc: Global, count: u32) -> Result<MemTree, NoMemory> {
    if count == 0 || count > 1_000 {
        return Err(NoMemory);
    }
    make_tree(alloc, count)
}

/// The length of the file at a path, and 0 where there is none.
fn length_at<T: Tree>(alloc: Global, tree: &mut T, path: &str) -> Result<u64, NoMemory> {
    let Ok(path) = Abs::read(alloc, path.as_bytes()) else {
        return Err(NoMemory);
    };
    match tree.probe(alloc, &path) {
        Ok(Found::File { len, .. }) => Ok(len),
        Ok(Found::Absent) => Ok(0),
        Err(_) => Err(NoMemory),
    }
}

/// The lengths of all libraries up to a number, together.
fn length_of_libraries<T: Tree>(alloc: Global, tree: &mut T, count: u32) -> Result<u64, NoMemory> {
    let mut total = 0u64;
    for number in 0..count {
        let number = number.saturating_add(1);
        let path = format!(in alloc; "/gen/lib/libg{number}.so")?;
        total = total.saturating_add(length_at(alloc, tree, path.as_str())?);
    }
    Ok(total)
}

#[test]
fn lengths_of_files(rt: HostRuntime) -> Result<(), NoMemory> {
    for (count, path, length) in [
        (1, "/lib64/ld-linux-x86-64.so.2", 352),
        (1, "/lib64/libc.so.6", 504),
        (1, "/gen/bin/app", 744),
        (1, "/gen/lib/libg0.so", 0),
        (1, "/gen/lib/libg1.so", 648),
        (1, "/gen/lib/libg2.so", 0),
        (2, "/gen/lib/libg1.so", 704),
        (2, "/gen/lib/libg2.so", 680),
        (2, "/gen/lib/libg3.so", 0),
        (3, "/gen/lib/libg1.so", 728),
        (3, "/gen/lib/libg2.so", 680),
        (3, "/gen/lib/libg3.so", 680),
        (1_000, "/gen/bin/app", 744),
        (1_000, "/gen/lib/libg333.so", 744),
        (1_000, "/gen/lib/libg500.so", 712),
        (1_000, "/gen/lib/libg1000.so", 688),
        (1_000, "/gen/lib/libg1001.so", 0),
    ] {
        let mut tree = tree_of(rt.alloc(), count)?;
        let found = length_at(rt.alloc(), &mut tree, path)?;
        assert_eq!(rt; found, length, "{path} of {count}");
    }
    Ok(())
}

#[test]
fn a_thousand_libraries_are_small(rt: HostRuntime) -> Result<(), NoMemory> {
    let mut tree = tree_of(rt.alloc(), 1_000)?;
    let libraries = length_of_libraries(rt.alloc(), &mut tree, 1_000)?;
    // with the loader, the C library and the program all files have 716,736 bytes, of 8 MiB
    assert_eq!(rt; libraries, 715_136);
    Ok(())
}
