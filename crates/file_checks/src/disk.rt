//! What stands on the file system, and how it comes there.

use crate::step::{Step, below, faulty, said};
use path_text::Abs;
use std::alloc::Global;
use std::io::ErrorKind;
use std::os::unix::fs::{PermissionsExt, symlink};
use std::{fs, io};

// `r--r--r--`, and by how much an execute bit stands below its read bit
const READ_BITS: u32 = 0o444;

const EXECUTE_SHIFT: u32 = 2;

pub fn answer(rt: &HostRuntime, folder: &Abs, step: Step<'_>) -> io::Result<String> {
    let path = below(rt.alloc(), folder, step.name)?;
    let path = path.as_str();
    match step.verb {
        "file" => fs::write(rt, path, step.text)?,
        "folder" => fs::create_dir(rt, path)?,
        "link" => symlink(rt, step.text, path)?,
        "look" => return look(rt, path),
        "rights" => return rights(rt, path, below(rt.alloc(), folder, step.text)?.as_str()),
        _ => return Err(faulty()),
    }
    said(rt.alloc(), "Ok")
}

/// What stands at a path, and of a file what it holds.
fn look(rt: &HostRuntime, path: &str) -> io::Result<String> {
    match fs::symlink_metadata(rt, path) {
        Ok(metadata) if metadata.is_symlink() => said(rt.alloc(), "a link"),
        Ok(metadata) if metadata.is_dir() => said(rt.alloc(), "a folder"),
        Ok(_) => fs::read_to_string(rt, path),
        Err(error) if error.kind() == ErrorKind::NotFound => said(rt.alloc(), "nothing"),
        Err(error) => Err(error),
    }
}

/// The rights of a file, set beside those of another one.
fn rights(rt: &HostRuntime, path: &str, other: &str) -> io::Result<String> {
    let mode = mode_of(rt, path)?;
    let usual = mode_of(rt, other)?;
    let text = if mode == usual {
        "the same"
    } else if mode == (usual | ((usual & READ_BITS) >> EXECUTE_SHIFT)) {
        "run by those who may read"
    } else {
        "others"
    };
    said(rt.alloc(), text)
}

fn mode_of(rt: &HostRuntime, path: &str) -> io::Result<u32> {
    Ok(fs::metadata(rt, path)?.permissions().mode())
}
