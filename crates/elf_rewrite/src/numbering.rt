//! The tables of a file, by the numbers under which an overlap names them.

/// The ELF header.
pub const HEADER: u8 = 1;
/// The program headers.
pub const SEGMENTS: u8 = 2;
/// The path of the interpreter.
pub const INTERP: u8 = 3;
/// The dynamic table up to its capacity.
pub const DYNAMIC: u8 = 4;
/// The string table.
pub const STRINGS: u8 = 5;
/// The symbols.
pub const SYMBOLS: u8 = 6;
/// The version indexes.
pub const VERSYM: u8 = 7;
/// Each record of the versions that are needed.
pub const VERNEED: u8 = 8;
/// Each record of the versions that are defined, and its first name.
pub const VERDEF: u8 = 9;
/// The hash table.
pub const HASH: u8 = 10;
/// The GNU hash table, with the chains of the symbols below its reach.
pub const GNU_HASH: u8 = 11;
/// The section headers.
pub const SECTIONS: u8 = 12;
