//! The numbers of the refusals.

pub const CONFIG_ABSENT: u8 = 1;

pub const NOT_TOML: u8 = 2;

pub const MISSING_KEY: u8 = 3;

pub const WRONG_KIND: u8 = 4;

pub const UNKNOWN_KEY: u8 = 5;

pub const BAD_PATH: u8 = 6;

pub const BAD_NAME: u8 = 7;

pub const TWO_TARGETS: u8 = 8;

pub const NO_ROOM: u8 = 9;

pub const NO_PROGRAM: u8 = 10;

pub const DAMAGED: u8 = 11;

pub const RELATIVE_NEED: u8 = 12;

pub const TOKEN_IN_NEED: u8 = 13;

pub const RELATIVE_ITEM: u8 = 14;

pub const TOKEN_UNSET: u8 = 15;

pub const MISSING_LIBRARY: u8 = 16;

pub const TOO_MANY_OBJECTS: u8 = 17;

pub const VERSION_FILE_UNLOADED: u8 = 18;

pub const UNSATISFIED_VERSION: u8 = 19;

pub const NO_INTERPRETER: u8 = 20;

pub const INTERPRETER_UNLISTED: u8 = 21;

pub const PROGRAM_NEEDED: u8 = 22;

pub const HOST_NAME_CLASH: u8 = 23;

pub const HOST_RPATH: u8 = 24;

pub const HOST_NEEDS_UNLISTED: u8 = 25;

pub const HOST_ALIAS: u8 = 26;

pub const SPLIT_NEED: u8 = 27;

pub const OPEN_ALIAS: u8 = 28;

pub const OPEN_NAME_ON_HOST_LIST: u8 = 29;

pub const TWO_OPEN_NAMES: u8 = 30;

pub const NAME_CLASH: u8 = 31;

pub const BAD_FILE_NAME: u8 = 32;

pub const SOURCE_NOT_HOST: u8 = 33;

pub const TABLE_OVERLAP: u8 = 34;

pub const TOO_MANY_HEADERS: u8 = 35;

pub const TOO_LARGE: u8 = 36;

pub const STRINGS_TOO_LONG: u8 = 37;

pub const FILE_ABSENT: u8 = 38;

pub const DESK_NOT_UTF8: u8 = 39;

pub const DESK_LINE: u8 = 40;

pub const NO_GROUP: u8 = 41;

pub const TWO_GROUPS: u8 = 42;

pub const TWO_KEYS: u8 = 43;

pub const DESK_MISSING_KEY: u8 = 44;

pub const EXEC_UNKNOWN: u8 = 45;

pub const ICON_DIFFERS: u8 = 46;

pub const TARGET_CLASH: u8 = 47;

pub const TARGET_IN_LIB: u8 = 48;

pub const NOT_EMPTY: u8 = 49;

pub const RECORD_ABSENT: u8 = 50;

pub const RECORD_LINE: u8 = 51;

pub const HOST_FAILS: u8 = 52;

pub const FILE_CHANGED: u8 = 56;
