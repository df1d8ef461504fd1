//! Plays scenes on the real files of this machine, as standard input says, and prints each line
//! with what came of it.
//!
//! A line is an actor, a verb, a name and a text, with a blank between them: `out begin tool`. The
//! actors are the tree, the folder (`out`) and the sink of crate `real_files`, a sink whose output
//! takes nothing (`closed`), and the file system itself (`disk`). A line that begins with `#` is
//! the title of a scene, and its actors have counted nothing. Names are below a folder that is made
//! where the program is run, and removed at the end.
#![tactic(auto)]

mod closed;
mod disk;
mod out;
mod scene;
mod sink;
mod step;
mod tree;

use path_text::Abs;
use scene::Scene;
use std::{env, fs, io};
use step::{Step, faulty};

fn main(rt: HostRuntime) -> io::Result<()> {
    let text = io::read_to_string(rt.alloc(), rt.reader())?;
    let folder = make_folder(&rt)?;
    play(&rt, &folder, text.as_str())?;
    fs::remove_dir_all(&rt, folder.as_str())
}

/// Makes the folder of the scenes, in the one that the program is run in.
fn make_folder(rt: &HostRuntime) -> io::Result<Abs> {
    let here = env::current_dir(rt)?;
    let folder = here.join(rt.alloc(), "file-checks")?;
    fs::create_dir(rt, folder.as_path())?;
    match Abs::read(rt.alloc(), folder.as_str().as_bytes()) {
        Ok(folder) => Ok(folder),
        Err(_) => Err(faulty()),
    }
}

fn play(rt: &HostRuntime, folder: &Abs, text: &str) -> io::Result<()> {
    let mut scene = Scene::new(rt);
    for line in text.lines() {
        if line.starts_with('#') {
            scene = Scene::new(rt);
            println!(rt; "{line}")?;
        } else {
            print!(rt; "{line} -> ")?;
            let answer = scene.answer(folder, Step::read(line))?;
            println!(rt; "{}", answer.as_str())?;
        }
    }
    Ok(())
}
