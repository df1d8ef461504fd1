//! Tables that grow, and one that would be too long.

use super::{GrowStop, Grown};
use load_model::{List, Name, NoMemory};
use std::alloc::{AllocError, Global};

fn names(alloc: Global, texts: &[&str]) -> Result<List<Name>, NoMemory> {
    let mut names = List::new(alloc);
    for text in texts {
        names.push(Name::from_bytes(alloc, text.as_bytes())?)?;
    }
    Ok(names)
}

/// A text that comes twice is placed once, behind the 56 old bytes; an old text has no new place.
#[test]
fn each_text_once(rt: HostRuntime) {
    let alloc = rt.alloc();
    let texts = names(alloc, &["libc.so.6", "/x", "libc.so.6"]).expect(&rt, "memory");
    let grown = Grown::plan(alloc, 56, texts.as_slice()).expect(&rt, "it grows");
    assert_eq!(rt; grown.size(), 69);
    for (text, place) in [
        ("libc.so.6", Some(56)),
        ("/x", Some(66)),
        ("libm.so.6", None),
    ] {
        assert_eq!(rt; grown.place(text.as_bytes()), place, "{text}");
    }
    let mut buf = [7; 13];
    grown.fill(&mut buf);
    assert_eq!(rt; buf.as_slice(), b"libc.so.6\0/x\0".as_slice());
}

/// The new size is below 2^32, or it is too long.
#[test]
fn longest_table(rt: HostRuntime) {
    let alloc = rt.alloc();
    let texts = names(alloc, &["abc"]).expect(&rt, "memory");
    let fits = Grown::plan(alloc, 4_294_967_291, texts.as_slice()).expect(&rt, "it grows");
    assert_eq!(rt; fits.size(), 4_294_967_295);
    let long = Grown::plan(alloc, 4_294_967_292, texts.as_slice());
    assert_eq!(rt; long.err(), Some(GrowStop::TooLong));
}
