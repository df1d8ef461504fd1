//! The ELF header: what kind of file it is, and where the program headers are.

ghost use Rattle.std.specs.Prelude.{◌≡◌, ◌≤◌, ◌+◌, ◌*◌, length, OnOk};
ghost use Rattle.answers.specs.Answers.{TellsBy};
ghost use Rattle.byte_view.specs.HeaderFlaws.{headers_end, ident_flaw, word_flaw};
ghost use Rattle.elf_headers.specs.Faults.{elf_fault_flaw};

use crate::faults::{ElfFault, flawed, short};
use crate::fields::{half, word, xword};
use byte_view::constants::{
    E_EHSIZE_AT, E_MACHINE_AT, E_PHENTSIZE_AT, E_PHNUM_AT, E_PHOFF_AT, E_TYPE_AT, E_VERSION_AT,
    EHDR_SIZE, EI_CLASS, EI_DATA, EI_VERSION, ELFCLASS64, ELFDATA2LSB, ELFMAG, EM_X86_64, ET_DYN,
    ET_EXEC, EV_CURRENT, LONGEST_FILE, PHDR_SIZE, PN_XNUM,
};
use byte_view::flaws::{CLASS, HEADER_SIZE, IDENT_VERSION, KIND, MACHINE, NOT_ELF, ORDER, TOO_BIG};

/// Whether this is an ELF file of 64-bit words, the lowest byte first, of a length that is read.
#[tactic(auto, unfolding(byte_view::specs::HeaderFlaws::ident_flaw))]
pub(crate) fn check_ident(bytes: &[u8]) -> Result<(), ElfFault>
    ensures flaw { TellsBy elf_fault_flaw result (ident_flaw bytes.now) }
    ensures header { OnOk result (EHDR_SIZE ≤ length bytes.now) }
    ensures limit { OnOk result (length bytes.now ≤ LONGEST_FILE) }
{
    let len = bytes.len() as u64;
    if len > LONGEST_FILE {
        return Err(flawed(TOO_BIG, len));
    }
    if !bytes.starts_with(&ELFMAG) {
        return Err(flawed(NOT_ELF, 0));
    }
    if len < u64::from(EHDR_SIZE) {
        return Err(short(u64::from(EHDR_SIZE), len));
    }
    if bytes[EI_CLASS] != ELFCLASS64 {
        return Err(flawed(CLASS, u64::from(bytes[EI_CLASS])));
    }
    if bytes[EI_DATA] != ELFDATA2LSB {
        return Err(flawed(ORDER, u64::from(bytes[EI_DATA])));
    }
    if bytes[EI_VERSION] != EV_CURRENT {
        return Err(flawed(IDENT_VERSION, u64::from(bytes[EI_VERSION])));
    }
    let version = word(bytes, E_VERSION_AT);
    if version != u32::from(EV_CURRENT) {
        return Err(flawed(IDENT_VERSION, u64::from(version)));
    }
    Ok(())
}

/// Whether this is a program or a shared object for the machine, whose program headers are in the
/// file.
#[tactic(auto, unfolding(byte_view::specs::HeaderFlaws::word_flaw))]
pub(crate) fn check_words(bytes: &[u8]) -> Result<(), ElfFault>
    requires { EHDR_SIZE ≤ length bytes.now }
    ensures flaw { TellsBy elf_fault_flaw result (word_flaw bytes.now) }
    ensures headers { OnOk result (headers_end bytes.now ≤ length bytes.now) }
{
    let machine = half(bytes, E_MACHINE_AT);
    if machine != EM_X86_64 {
        return Err(flawed(MACHINE, u64::from(machine)));
    }
    let kind = half(bytes, E_TYPE_AT);
    if kind != ET_EXEC && kind != ET_DYN {
        return Err(flawed(KIND, u64::from(kind)));
    }
    if half(bytes, E_EHSIZE_AT) != EHDR_SIZE {
        return Err(flawed(HEADER_SIZE, E_EHSIZE_AT));
    }
    if half(bytes, E_PHENTSIZE_AT) != PHDR_SIZE {
        return Err(flawed(HEADER_SIZE, E_PHENTSIZE_AT));
    }
    let count = half(bytes, E_PHNUM_AT);
    if count == 0 || count == PN_XNUM {
        return Err(flawed(HEADER_SIZE, E_PHNUM_AT));
    }
    let need = xword(bytes, E_PHOFF_AT).saturating_add(u64::from(PHDR_SIZE) * u64::from(count));
    let have = bytes.len() as u64;
    if need > have {
        return Err(short(need, have));
    }
    Ok(())
}
