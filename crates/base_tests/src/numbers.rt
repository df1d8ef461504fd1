//! Numbers in bytes, read and written.

use byte_view::{set_u16, set_u32, set_u64, u16_at, u32_at, u64_at};

const BYTES: [u8; 10] = [1, 2, 3, 4, 5, 6, 7, 8, 9, 10];

#[test]
fn the_lowest_byte_is_first(rt: HostRuntime) {
    assert_eq!(rt; u16_at(&BYTES, 0), Some(0x0201));
    assert_eq!(rt; u32_at(&BYTES, 1), Some(0x0504_0302));
    assert_eq!(rt; u64_at(&BYTES, 2), Some(0x0a09_0807_0605_0403));
}

#[test]
fn bytes_that_end_give_no_number(rt: HostRuntime) {
    assert_eq!(rt; u16_at(&BYTES, 8), Some(0x0a09));
    assert_eq!(rt; u16_at(&BYTES, 9), None);
    assert_eq!(rt; u32_at(&BYTES, 7), None);
    assert_eq!(rt; u64_at(&BYTES, 3), None);
    assert_eq!(rt; u64_at(&BYTES, u64::MAX), None);
}

#[test]
fn writes_change_only_their_bytes(rt: HostRuntime) {
    let mut bytes = [255u8; 16];
    set_u16(&mut bytes, 1, 0x0201);
    set_u32(&mut bytes, 3, 0x0605_0403);
    set_u64(&mut bytes, 7, 0x0e0d_0c0b_0a09_0807);
    assert_eq!(rt;
        bytes,
        [255, 1, 2, 3, 4, 5, 6, 7, 8, 9, 10, 11, 12, 13, 14, 255]
    );
}
