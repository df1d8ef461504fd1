//! Absolute paths in normal form, targets, and file names.

use path_text::{Abs, PathFault, Rel, RelFault, is_file_name};
use std::test::Fail;

#[test]
fn paths_are_read_in_normal_form(rt: HostRuntime) -> Result<(), Fail> {
    let rows = [
        (b"/".as_slice(), "/"),
        (b"/..".as_slice(), "/"),
        (b"//a/./b/../c".as_slice(), "/a/c"),
        (b"/../../usr//lib/.".as_slice(), "/usr/lib"),
        (b"/a/..b/.c/.../".as_slice(), "/a/..b/.c/..."),
    ];
    for (text, path) in rows {
        assert_eq!(rt; Abs::read(rt.alloc(), text)?.as_str(), path);
    }
    Ok(())
}

#[test]
fn the_first_fault_of_a_path_is_answered(rt: HostRuntime) {
    let rows = [
        (b"".as_slice(), PathFault::Empty),
        (b"a/\0b".as_slice(), PathFault::Relative),
        (b"\xff".as_slice(), PathFault::Relative),
        (b"/a\0\xff".as_slice(), PathFault::HasNul),
        (b"/a/\xff/..".as_slice(), PathFault::NotText),
    ];
    for (text, fault) in rows {
        assert_eq!(rt; Abs::read(rt.alloc(), text).err(), Some(fault));
    }
}

#[test]
fn a_rest_is_joined_and_read(rt: HostRuntime) -> Result<(), Fail> {
    let rows = [
        ("/usr", b"lib/x".as_slice(), Ok("/usr/lib/x")),
        ("/usr/lib", b"../../..".as_slice(), Ok("/")),
        ("/usr", b"".as_slice(), Ok("/usr")),
        ("/usr", b"/etc".as_slice(), Ok("/usr/etc")),
        ("/", b"\0\xff".as_slice(), Err(PathFault::HasNul)),
        ("/", b"\xff".as_slice(), Err(PathFault::NotText)),
    ];
    for (path, rest, joined) in rows {
        let path = Abs::read(rt.alloc(), path.as_bytes())?;
        let found = path.join(rt.alloc(), rest);
        assert_eq!(rt; found.as_ref().ok().map(|p| p.as_str()), joined.ok());
        assert_eq!(rt; found.err(), joined.err());
    }
    Ok(())
}

#[test]
fn a_path_has_a_folder_and_a_base(rt: HostRuntime) -> Result<(), Fail> {
    let rows = [
        ("/", "/", b"".as_slice()),
        ("/usr", "/", b"usr".as_slice()),
        ("/usr/lib/x", "/usr/lib", b"x".as_slice()),
    ];
    for (text, folder, base) in rows {
        let path = Abs::read(rt.alloc(), text.as_bytes())?;
        assert_eq!(rt; path.folder(rt.alloc())?.as_str(), folder);
        assert_eq!(rt; path.base(), base);
    }
    Ok(())
}

#[test]
fn targets_are_kept_as_they_are(rt: HostRuntime) -> Result<(), Fail> {
    for text in ["AppRun", "usr/lib/x.so", "..a/.b", "a b$\x7f"] {
        assert_eq!(rt; Rel::read(rt.alloc(), text.as_bytes())?.as_str(), text);
    }
    Ok(())
}

#[test]
fn the_first_fault_of_a_target_is_answered(rt: HostRuntime) {
    let rows = [
        (b"".as_slice(), RelFault::Empty),
        (b"/\0".as_slice(), RelFault::Absolute),
        (b"a\0\xff".as_slice(), RelFault::HasNul),
        (b"./\xff".as_slice(), RelFault::NotText),
        (b"a//b".as_slice(), RelFault::BadPart),
        (b"a/".as_slice(), RelFault::BadPart),
        (b"./a".as_slice(), RelFault::BadPart),
        (b"a/../b".as_slice(), RelFault::BadPart),
        (b"a/b\x1f".as_slice(), RelFault::BadPart),
    ];
    for (text, fault) in rows {
        assert_eq!(rt; Rel::read(rt.alloc(), text).err(), Some(fault));
    }
}

#[test]
fn names_of_files(rt: HostRuntime) {
    let names = [
        b"libm.so.6".as_slice(),
        b"...".as_slice(),
        b" ".as_slice(),
        b"\xff".as_slice(),
    ];
    for name in names {
        assert!(rt; is_file_name(name));
    }
    let others = [
        b"".as_slice(),
        b".".as_slice(),
        b"..".as_slice(),
        b"a/b".as_slice(),
        b"$ORIGIN".as_slice(),
        b"a\n".as_slice(),
        b"a\x7f".as_slice(),
    ];
    for name in others {
        assert!(rt; !is_file_name(name));
    }
}
