//! Bindings and refusals as lines.

use case_rows::Fault;
use load_model::escape;
use loader_replay::ReplayStop;
use std::alloc::Global;

/// Those lines of a report that say a binding.
pub fn bind_lines(alloc: Global, report: &[u8]) -> Result<Vec<u8>, Fault> {
    let mut text = Vec::new(alloc);
    for line in report.split(|byte| *byte == b'\n') {
        if line.starts_with(b"bind ".as_slice()) {
            text.extend_from_slice(line)?;
            text.push(b'\n')?;
        }
    }
    Ok(text)
}

/// A line of the refusal's name and its evidence.
pub fn stop_line(alloc: Global, stop: &ReplayStop) -> Result<Vec<u8>, Fault> {
    match stop {
        ReplayStop::Unloaded { by, file } => {
            let fields = [by.as_str().as_bytes(), file.as_bytes()];
            line(alloc, b"VersionFileUnloaded", fields.as_slice())
        }
        ReplayStop::Unsatisfied { by, file, version } => {
            let fields = [by.as_str().as_bytes(), file.as_bytes(), version.as_bytes()];
            line(alloc, b"UnsatisfiedVersion", fields.as_slice())
        }
        ReplayStop::Load(_) => line(alloc, b"NoLoadList", &[]),
        ReplayStop::NoMemory => Err(Fault::NoMemory),
    }
}

/// A line of a word and fields.
fn line(alloc: Global, word: &[u8], fields: &[&[u8]]) -> Result<Vec<u8>, Fault> {
    let mut text = Vec::from_slice(alloc, word)?;
    for field in fields {
        text.push(b' ')?;
        let field = escape(alloc, field)?;
        text.extend_from_slice(field.as_bytes())?;
    }
    text.push(b'\n')?;
    Ok(text)
}
