//! The numbers of the standard, under its names.
//!
//! System V gABI, ELF Header, Program Header and Dynamic Section; the GNU extensions to them are in
//! the Linux Standard Base.

/// The bytes that an ELF file begins with.
pub const ELFMAG: [u8; 4] = [0x7f, b'E', b'L', b'F'];
/// The index of the file class in `e_ident`.
pub const EI_CLASS: usize = 4;
/// The index of the byte order in `e_ident`.
pub const EI_DATA: usize = 5;
/// The index of the version in `e_ident`.
pub const EI_VERSION: usize = 6;
/// Files of 64-bit words.
pub const ELFCLASS64: u8 = 2;
/// The lowest byte of a number first.
pub const ELFDATA2LSB: u8 = 1;
/// The one version of the format.
pub const EV_CURRENT: u8 = 1;
/// The size of the ELF header.
pub const EHDR_SIZE: u16 = 64;
/// The size of a program header.
pub const PHDR_SIZE: u16 = 56;
/// The size of an entry of the dynamic table.
pub const DYN_SIZE: u64 = 16;

/// The place of `e_type` in the ELF header.
pub const E_TYPE_AT: u64 = 16;
/// The place of `e_machine` in the ELF header.
pub const E_MACHINE_AT: u64 = 18;
/// The place of `e_version` in the ELF header.
pub const E_VERSION_AT: u64 = 20;
/// The place of `e_entry` in the ELF header.
pub const E_ENTRY_AT: u64 = 24;
/// The place of `e_phoff` in the ELF header.
pub const E_PHOFF_AT: u64 = 32;
/// The place of `e_shoff` in the ELF header.
pub const E_SHOFF_AT: u64 = 40;
/// The place of `e_flags` in the ELF header.
pub const E_FLAGS_AT: u64 = 48;
/// The place of `e_ehsize` in the ELF header.
pub const E_EHSIZE_AT: u64 = 52;
/// The place of `e_phentsize` in the ELF header.
pub const E_PHENTSIZE_AT: u64 = 54;
/// The place of `e_phnum` in the ELF header.
pub const E_PHNUM_AT: u64 = 56;
/// The place of `e_shentsize` in the ELF header.
pub const E_SHENTSIZE_AT: u64 = 58;
/// The place of `e_shnum` in the ELF header.
pub const E_SHNUM_AT: u64 = 60;
/// The place of `e_shstrndx` in the ELF header.
pub const E_SHSTRNDX_AT: u64 = 62;

/// The place of `p_flags` in a program header.
pub const P_FLAGS_AT: u64 = 4;
/// The place of `p_offset` in a program header.
pub const P_OFFSET_AT: u64 = 8;
/// The place of `p_vaddr` in a program header.
pub const P_VADDR_AT: u64 = 16;
/// The place of `p_paddr` in a program header.
pub const P_PADDR_AT: u64 = 24;
/// The place of `p_filesz` in a program header.
pub const P_FILESZ_AT: u64 = 32;
/// The place of `p_memsz` in a program header.
pub const P_MEMSZ_AT: u64 = 40;
/// The place of `p_align` in a program header.
pub const P_ALIGN_AT: u64 = 48;
/// The place of `d_val` or `d_ptr` in an entry of the dynamic table.
pub const D_VAL_AT: u64 = 8;

/// A program at fixed addresses.
pub const ET_EXEC: u16 = 2;
/// A shared object, or a program that runs at any address.
pub const ET_DYN: u16 = 3;
/// The x86-64 machine.
pub const EM_X86_64: u16 = 62;
/// Says that the number of program headers stands in a section header.
pub const PN_XNUM: u16 = 65_535;

/// A part of the file that is loaded into memory.
pub const PT_LOAD: u32 = 1;
/// The dynamic table.
pub const PT_DYNAMIC: u32 = 2;
/// The path of the interpreter.
pub const PT_INTERP: u32 = 3;
/// The program headers themselves.
pub const PT_PHDR: u32 = 6;

/// The segment may be run.
pub const PF_X: u32 = 1;
/// The segment may be written.
pub const PF_W: u32 = 2;
/// The segment may be read.
pub const PF_R: u32 = 4;

/// The end of the dynamic table.
pub const DT_NULL: u64 = 0;
/// A needed library's name, as a string place.
pub const DT_NEEDED: u64 = 1;
/// The address of the symbol hash table.
pub const DT_HASH: u64 = 4;
/// The address of the string table.
pub const DT_STRTAB: u64 = 5;
/// The address of the symbol table.
pub const DT_SYMTAB: u64 = 6;
/// The size of the string table.
pub const DT_STRSZ: u64 = 10;
/// The size of a symbol.
pub const DT_SYMENT: u64 = 11;
/// The object's own name, as a string place.
pub const DT_SONAME: u64 = 14;
/// The older run path, as a string place.
pub const DT_RPATH: u64 = 15;
/// References are looked up in the object itself first.
pub const DT_SYMBOLIC: u64 = 16;
/// The run path, as a string place.
pub const DT_RUNPATH: u64 = 29;
/// Flags, of the names that begin `DF_`.
pub const DT_FLAGS: u64 = 30;
/// The address of the GNU hash table.
pub const DT_GNU_HASH: u64 = 0x6fff_fef5;
/// The address of the version indexes.
pub const DT_VERSYM: u64 = 0x6fff_fff0;
/// Flags, of the names that begin `DF_1_`.
pub const DT_FLAGS_1: u64 = 0x6fff_fffb;
/// The address of the version definitions.
pub const DT_VERDEF: u64 = 0x6fff_fffc;
/// How many version definitions there are.
pub const DT_VERDEFNUM: u64 = 0x6fff_fffd;
/// The address of the needed versions.
pub const DT_VERNEED: u64 = 0x6fff_fffe;
/// How many records of needed versions there are.
pub const DT_VERNEEDNUM: u64 = 0x6fff_ffff;
/// Libraries that audit what this object's needs bring.
pub const DT_DEPAUDIT: u64 = 0x6fff_fefb;
/// Libraries that audit this object.
pub const DT_AUDIT: u64 = 0x6fff_fefc;
/// A library that is searched before this one.
pub const DT_AUXILIARY: u64 = 0x7fff_fffd;
/// A library that is searched in place of this one.
pub const DT_FILTER: u64 = 0x7fff_ffff;

/// In `DT_FLAGS`: as `DT_SYMBOLIC`.
pub const DF_SYMBOLIC: u64 = 0x2;
/// In `DT_FLAGS_1`: the object's symbols come before all others.
pub const DF_1_INTERPOSE: u64 = 0x400;
/// In `DT_FLAGS_1`: the default directories are not searched.
pub const DF_1_NODEFLIB: u64 = 0x800;

/// The longest file that is read: 512 MiB.
pub const LONGEST_FILE: u64 = 536_870_912;
/// No segment ends above this address in memory.
pub const HIGHEST_END: u64 = 1 << 62;
/// The least alignment of a loaded segment.
pub const LEAST_ALIGN: u64 = 4_096;

/// The size of a section header.
pub const SHDR_SIZE: u16 = 64;
/// A section that holds the symbols of the dynamic table.
pub const SHT_DYNSYM: u32 = 11;
/// The section of a symbol that is not defined here.
pub const SHN_UNDEF: u16 = 0;
/// The section of a symbol whose value is no address.
pub const SHN_ABS: u16 = 0xfff1;
/// The size of a symbol.
pub const SYM_SIZE: u64 = 24;

/// A symbol that other objects do not see.
pub const STB_LOCAL: u8 = 0;
/// A symbol that other objects see.
pub const STB_GLOBAL: u8 = 1;
/// A symbol that other objects see, and that may be missing.
pub const STB_WEAK: u8 = 2;
/// A symbol of which a process has one.
pub const STB_GNU_UNIQUE: u8 = 10;

/// A symbol of no type.
pub const STT_NOTYPE: u8 = 0;
/// A variable.
pub const STT_OBJECT: u8 = 1;
/// A function.
pub const STT_FUNC: u8 = 2;
/// A variable that is not placed yet.
pub const STT_COMMON: u8 = 5;
/// A variable of each thread.
pub const STT_TLS: u8 = 6;
/// A function that gives the function to call.
pub const STT_GNU_IFUNC: u8 = 10;

/// Seen by all objects.
pub const STV_DEFAULT: u8 = 0;
/// Seen by the object alone, and never by another's address.
pub const STV_INTERNAL: u8 = 1;
/// Seen by the object alone.
pub const STV_HIDDEN: u8 = 2;
/// Seen by all objects, and bound by the object to its own.
pub const STV_PROTECTED: u8 = 3;

/// The version index of a symbol that other objects do not see.
pub const VER_NDX_LOCAL: u16 = 0;
/// The version index of a symbol without a version.
pub const VER_NDX_GLOBAL: u16 = 1;
/// In a version index: a definition that is not the default of its name.
pub const VERSYM_HIDDEN: u16 = 0x8000;
/// In a version index: the index itself.
pub const VERSYM_VERSION: u16 = 0x7fff;
/// The version of the records of version definitions and of needed versions.
pub const VER_CURRENT: u16 = 1;
/// The definition that names the object itself.
pub const VER_FLG_BASE: u16 = 1;
/// A version that may be missing.
pub const VER_FLG_WEAK: u16 = 2;
