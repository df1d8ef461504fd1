use crate::fault::Fault;
use std::alloc::Global;

/// The bytes that hexadecimal digits say.
pub fn decoded(alloc: Global, digits: &str) -> Result<Vec<u8>, Fault> {
    match hex::decode(alloc, digits.as_bytes()) {
        Ok(bytes) => Ok(bytes),
        Err(_) => Err(Fault::Field("hex")),
    }
}
