//! Little-endian numbers in bytes.

ghost use Rattle.std.specs.Prelude.{◌≡◌, ◌≤◌, ◌<◌, ◌+◌, ◌++◌, length, take, drop, MatchOption, SomeIff};
ghost use Rattle.byteorder.specs.Endian.{little_bytes};
ghost use Rattle.byte_view.specs.Numbers.{number_at};

use byteorder::{ByteOrder, LittleEndian};

/// The bytes from `at` on, where there are at least `len`.
fn rest_at(bytes: &[u8], at: u64, len: usize) -> Option<&[u8]>
    requires { len ≤ 8 }
    ensures { MatchOption result (length bytes.now < at + len)
        (λ rest. (rest.now ≡ drop at bytes.now) × (at + len ≤ length bytes.now)) }
{
    let at = at as usize;
    if at <= bytes.len() && len <= bytes.len() - at {
        Some(&bytes[at..])
    } else {
        None
    }
}

/// The number in the two bytes at `at`, or `None` where the bytes end before it does.
#[tactic(auto, unfolding(crate::specs::Numbers::number_at))]
pub fn u16_at(bytes: &[u8], at: u64) -> Option<u16>
    ensures { SomeIff result (at + 2 ≤ length bytes.now) (number_at 2 bytes.now at) }
{
    let rest = rest_at(bytes, at, 2)?;
    Some(LittleEndian::read_u16(rest))
}

/// The number in the four bytes at `at`, or `None` where the bytes end before it does.
#[tactic(auto, unfolding(crate::specs::Numbers::number_at))]
pub fn u32_at(bytes: &[u8], at: u64) -> Option<u32>
    ensures { SomeIff result (at + 4 ≤ length bytes.now) (number_at 4 bytes.now at) }
{
    let rest = rest_at(bytes, at, 4)?;
    Some(LittleEndian::read_u32(rest))
}

/// The number in the eight bytes at `at`, or `None` where the bytes end before it does.
#[tactic(auto, unfolding(crate::specs::Numbers::number_at))]
pub fn u64_at(bytes: &[u8], at: u64) -> Option<u64>
    ensures { SomeIff result (at + 8 ≤ length bytes.now) (number_at 8 bytes.now at) }
{
    let rest = rest_at(bytes, at, 8)?;
    Some(LittleEndian::read_u64(rest))
}

/// Writes a number into the two bytes at `at`. All other bytes stay.
pub fn set_u16(buf: &mut [u8], at: usize, value: u16)
    requires { at + 2 ≤ length buf.old }
    ensures { buf.new ≡ take at buf.old ++ (little_bytes 2 value ++ drop (at + 2) buf.old) }
{
    LittleEndian::write_u16(&mut buf[at..at + 2], value);
}

/// Writes a number into the four bytes at `at`. All other bytes stay.
pub fn set_u32(buf: &mut [u8], at: usize, value: u32)
    requires { at + 4 ≤ length buf.old }
    ensures { buf.new ≡ take at buf.old ++ (little_bytes 4 value ++ drop (at + 4) buf.old) }
{
    LittleEndian::write_u32(&mut buf[at..at + 4], value);
}

/// Writes a number into the eight bytes at `at`. All other bytes stay.
pub fn set_u64(buf: &mut [u8], at: usize, value: u64)
    requires { at + 8 ≤ length buf.old }
    ensures { buf.new ≡ take at buf.old ++ (little_bytes 8 value ++ drop (at + 8) buf.old) }
{
    LittleEndian::write_u64(&mut buf[at..at + 8], value);
}
