//! What is appended to the bytes of a file: numbers, the lowest byte first, and parts, filled up
//! with zeros.

ghost use Rattle.std.specs.Prelude.{◌≡◌, ◌+◌, ◌-◌, ◌%◌, ◌++◌, OnOk};
ghost use Rattle.elf_shape.specs.Bytes.{halves, words, longs, padded};

use load_model::NoMemory;

/// Appends numbers of two bytes.
#[tactic(auto, unfolding(crate::specs::Bytes::halves))]
pub fn push_halves(out: &mut Vec<u8>, numbers: &[u16]) -> Result<(), NoMemory>
    ensures { OnOk result (out.new.items ≡ out.old.items ++ halves numbers.now) }
{
    for number in numbers {
        out.extend_from_slice(&number.to_le_bytes())?;
    }
    Ok(())
}

/// Appends numbers of four bytes.
#[tactic(auto, unfolding(crate::specs::Bytes::words))]
pub fn push_words(out: &mut Vec<u8>, numbers: &[u32]) -> Result<(), NoMemory>
    ensures { OnOk result (out.new.items ≡ out.old.items ++ words numbers.now) }
{
    for number in numbers {
        out.extend_from_slice(&number.to_le_bytes())?;
    }
    Ok(())
}

/// Appends numbers of eight bytes.
#[tactic(auto, unfolding(crate::specs::Bytes::longs))]
pub fn push_longs(out: &mut Vec<u8>, numbers: &[u64]) -> Result<(), NoMemory>
    ensures { OnOk result (out.new.items ≡ out.old.items ++ longs numbers.now) }
{
    for number in numbers {
        out.extend_from_slice(&number.to_le_bytes())?;
    }
    Ok(())
}

/// Appends bytes.
pub fn push_bytes(out: &mut Vec<u8>, bytes: &[u8]) -> Result<(), NoMemory>
    ensures { OnOk result (out.new.items ≡ out.old.items ++ bytes.now) }
{
    out.extend_from_slice(bytes)?;
    Ok(())
}

/// How many zeros bring a length to one that 8 divides.
pub fn gap(len: usize) -> usize
    ensures { result ≡ (8 - len % 8) % 8 }
{
    (8 - len % 8) % 8
}

/// Appends a part, and zeros up to a length that 8 divides.
#[tactic(auto, unfolding(crate::specs::Bytes::padded))]
pub fn push_padded(out: &mut Vec<u8>, part: &[u8]) -> Result<(), NoMemory>
    ensures { OnOk result (out.new.items ≡ out.old.items ++ padded part.now) }
{
    let zeros = [0u8; 8];
    push_bytes(out, part)?;
    push_bytes(out, &zeros[..gap(part.len())])
}
