//! Escaped texts.

use load_model::escape;

#[test]
fn escaped_texts(rt: HostRuntime) {
    let table = [
        (b"libc.so.6".as_slice(), b"libc.so.6".as_slice()),
        (b"".as_slice(), b"\\e".as_slice()),
        (b"-".as_slice(), b"\\x2d".as_slice()),
        (b"--".as_slice(), b"--".as_slice()),
        (b"a b".as_slice(), b"a\\x20b".as_slice()),
        (
            b"\\\x00\x7f\xff~!".as_slice(),
            b"\\x5c\\x00\\x7f\\xff~!".as_slice(),
        ),
    ];
    for (bytes, want) in table {
        match escape(rt.alloc(), bytes) {
            Ok(text) => assert!(rt; text.as_bytes() == want),
            Err(_) => assert!(rt; false),
        }
    }
}
