//! How a flaw is told: its name, and how many numbers belong to it.

ghost use Rattle.std.specs.Prelude.{◌≡◌};
ghost use Rattle.std.specs.Option.{option_copied};
ghost use Rattle.byte_view.specs.FlawNames.{flaw_name, numbers_told};

use crate::flaws::*;

/// How many numbers a flaw tells.
#[derive(Clone, Copy, Debug, PartialEq, Eq)]
pub enum Told {
    /// Its name says all.
    Nothing,
    /// Its first number.
    One,
    /// Both numbers.
    Two,
}

/// The name of the flaw with this number.
pub fn flaw_name(code: u8) -> Option<&'static [u8]>
    ensures { option_copied result ≡ flaw_name code }
{
    match code {
        NOT_ELF => Some(b"NotElf"),
        SHORT => Some(b"Short"),
        CLASS => Some(b"Class"),
        ORDER => Some(b"Order"),
        IDENT_VERSION => Some(b"IdentVersion"),
        MACHINE => Some(b"Machine"),
        KIND => Some(b"Kind"),
        HEADER_SIZE => Some(b"HeaderSize"),
        NO_LOAD => Some(b"NoLoad"),
        SEGMENT_RANGE => Some(b"SegmentRange"),
        SEGMENT_ORDER => Some(b"SegmentOrder"),
        SEGMENT_OVERLAP => Some(b"SegmentOverlap"),
        NO_DYNAMIC => Some(b"NoDynamic"),
        TWO_DYNAMIC => Some(b"TwoDynamic"),
        DYNAMIC_PLACE => Some(b"DynamicPlace"),
        NO_END => Some(b"NoEnd"),
        TAG_REFUSED => Some(b"TagRefused"),
        REPEATED => Some(b"Repeated"),
        MISSING_TAG => Some(b"MissingTag"),
        STRINGS_RANGE => Some(b"StringsRange"),
        STRINGS_END => Some(b"StringsEnd"),
        STRING_PLACE => Some(b"StringPlace"),
        ENTRY_SIZE => Some(b"EntrySize"),
        HASH_RANGE => Some(b"HashRange"),
        NO_SYMBOL_COUNT => Some(b"NoSymbolCount"),
        COUNT_DIFFERS => Some(b"CountDiffers"),
        SYMBOL_RANGE => Some(b"SymbolRange"),
        SYMBOL_NAME => Some(b"SymbolName"),
        HASH_BROKEN => Some(b"HashBroken"),
        VERSION_RANGE => Some(b"VersionRange"),
        VERSION_COUNT => Some(b"VersionCount"),
        UNKNOWN_INDEX => Some(b"UnknownIndex"),
        BAD_NAME => Some(b"BadName"),
        TOO_BIG => Some(b"TooBig"),
        _ => None,
    }
}

/// How many numbers the flaw with this number tells: none where it has no name.
pub fn numbers_told(code: u8) -> Told
    ensures { result ≡ numbers_told code }
{
    match code {
        SHORT | COUNT_DIFFERS | VERSION_COUNT | UNKNOWN_INDEX => Told::Two,
        CLASS
        | ORDER
        | IDENT_VERSION
        | MACHINE
        | KIND
        | HEADER_SIZE
        | SEGMENT_RANGE
        | SEGMENT_ORDER
        | SEGMENT_OVERLAP
        | TWO_DYNAMIC
        | TAG_REFUSED
        | REPEATED
        | MISSING_TAG
        | STRING_PLACE
        | ENTRY_SIZE
        | HASH_RANGE
        | SYMBOL_NAME
        | HASH_BROKEN
        | VERSION_RANGE
        | BAD_NAME
        | TOO_BIG => Told::One,
        _ => Told::Nothing,
    }
}
