//! Names and texts.

use load_model::{Name, Text};
use std::alloc::AllocError;

#[test]
fn copies_bytes(rt: HostRuntime) -> Result<(), AllocError> {
    let alloc = rt.alloc();
    let bytes = b"libc.so.6\xff".as_slice();
    match Name::from_bytes(alloc, bytes) {
        Ok(name) => assert!(rt; name.as_bytes() == bytes),
        Err(_) => assert!(rt; false),
    }
    match Text::from_bytes(alloc, bytes) {
        Ok(text) => assert!(rt; text.as_bytes() == bytes),
        Err(_) => assert!(rt; false),
    }
    assert!(rt; Text::from_vec(Vec::from_slice(alloc, bytes)?).as_bytes() == bytes);
    Ok(())
}
