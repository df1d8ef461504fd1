//! Flaws of files, by their numbers: what each says, and the numbers that it tells.

/// What is wrong with a file, by its number, and up to two numbers that say where or what.
#[derive(Clone, Copy, Debug, PartialEq, Eq)]
pub struct Flaw {
    /// Which flaw it is.
    pub code: u8,
    /// Its first number, or 0.
    pub a: u64,
    /// Its second number, or 0.
    pub b: u64,
}

/// The file does not begin as an ELF file does.
pub const NOT_ELF: u8 = 1;
/// The file ends before what is read of it: the length that is needed, and the length that it has.
pub const SHORT: u8 = 2;
/// The file is not one of 64-bit words: the class.
pub const CLASS: u8 = 3;
/// The lowest byte of a number does not come first: the order.
pub const ORDER: u8 = 4;
/// The format is of another version: the version.
pub const IDENT_VERSION: u8 = 5;
/// The file is for another machine: the machine.
pub const MACHINE: u8 = 6;
/// The file is neither a program nor a shared object: the type.
pub const KIND: u8 = 7;
/// A header has another size, or their number is none: the place of the field.
pub const HEADER_SIZE: u8 = 8;
/// Nothing of the file is loaded.
pub const NO_LOAD: u8 = 9;
/// A segment lies past the file, or can't be mapped: its number.
pub const SEGMENT_RANGE: u8 = 10;
/// A loaded segment begins below the one before it: its number.
pub const SEGMENT_ORDER: u8 = 11;
/// A loaded segment begins below the end of the one before it: its number.
pub const SEGMENT_OVERLAP: u8 = 12;
/// There is no dynamic table.
pub const NO_DYNAMIC: u8 = 13;
/// There is a second dynamic table: the number of its header.
pub const TWO_DYNAMIC: u8 = 14;
/// The dynamic table is not where its header says.
pub const DYNAMIC_PLACE: u8 = 15;
/// The dynamic table has no end.
pub const NO_END: u8 = 16;
/// An entry asks for what is not done: its tag.
pub const TAG_REFUSED: u8 = 17;
/// An entry stands twice: its tag.
pub const REPEATED: u8 = 18;
/// An entry is missing: its tag.
pub const MISSING_TAG: u8 = 19;
/// The string table is empty, or not in the file.
pub const STRINGS_RANGE: u8 = 20;
/// The string table does not end with a zero.
pub const STRINGS_END: u8 = 21;
/// A name lies past the string table: its place.
pub const STRING_PLACE: u8 = 22;
/// A symbol has another size: the size.
pub const ENTRY_SIZE: u8 = 23;
/// A hash table is not in the file, or breaks a rule of its kind: its tag.
pub const HASH_RANGE: u8 = 24;
/// Nothing says how many symbols there are.
pub const NO_SYMBOL_COUNT: u8 = 25;
/// Two counts of the symbols differ: both.
pub const COUNT_DIFFERS: u8 = 26;
/// The symbols are not in the file.
pub const SYMBOL_RANGE: u8 = 27;
/// A symbol's name lies past the string table: the symbol's index.
pub const SYMBOL_NAME: u8 = 28;
/// A hash table does not list a symbol that others may bind to: the symbol's index.
pub const HASH_BROKEN: u8 = 29;
/// A record of versions is not in the file, or of another version: its address.
pub const VERSION_RANGE: u8 = 30;
/// There are other than the said number of records: the said number, and the number found.
pub const VERSION_COUNT: u8 = 31;
/// A symbol's version index has no name: the symbol, and the index.
pub const UNKNOWN_INDEX: u8 = 32;
/// A name is not UTF-8: its place.
pub const BAD_NAME: u8 = 33;
/// The file is too long to be read: its length.
pub const TOO_BIG: u8 = 34;
