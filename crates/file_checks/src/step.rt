//! A line of a scene.

use path_text::Abs;
use ports::Failed;
use std::alloc::Global;
use std::io;
use std::io::ErrorKind;

/// What a line says: who does what, at which name and with which text. What is not there is empty.
#[derive(Clone, Copy)]
pub struct Step<'a> {
    pub actor: &'a str,
    pub verb: &'a str,
    pub name: &'a str,
    pub text: &'a str,
}

impl<'a> Step<'a> {
    pub fn read(line: &'a str) -> Step<'a> {
        let (actor, rest) = cut(line);
        let (verb, rest) = cut(rest);
        let (name, text) = cut(rest);
        Step {
            actor,
            verb,
            name,
            text,
        }
    }
}

/// What stands before the first blank and behind it.
fn cut(text: &str) -> (&str, &str) {
    text.split_once(' ').unwrap_or((text, ""))
}

/// The path of a name below the folder.
pub fn below(alloc: Global, folder: &Abs, name: &str) -> io::Result<Abs> {
    match folder.join(alloc, name.as_bytes()) {
        Ok(path) => Ok(path),
        Err(_) => Err(faulty()),
    }
}

/// An answer that is this text.
pub fn said(alloc: Global, text: &str) -> io::Result<String> {
    Ok(String::from_str(alloc, text)?)
}

/// How a call ended that answers nothing else.
pub fn ended(outcome: Result<(), Failed>) -> &'static str {
    match outcome {
        Ok(()) => "Ok",
        Err(Failed) => "Failed",
    }
}

/// The answer of a line that cannot be read.
pub fn faulty() -> io::Error {
    io::Error::from(ErrorKind::InvalidInput)
}
