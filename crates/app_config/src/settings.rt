//! What the loader is set to. Definitions: `specs/Settings.antt`.

ghost use Rattle.std.specs.Prelude.{◌≡◌, ◌++◌, ◌∷◌, [], IfOk, OnOk};
ghost use Rattle.path_text.specs.Path.{path_of};
ghost use Rattle.app_config.specs.Settings.{default_dirs as default_dirs_list, default_setting, setting_of};

use byte_view::constants::EM_X86_64;
use load_model::{List, Setting};
use path_text::{Abs, NoMemory};
use std::alloc::Global;

/// Programs of x86-64, these directories, no text for the tokens LIB and PLATFORM.
pub fn setting_of(dirs: List<Abs>) -> Setting
    ensures { result ≡ setting_of dirs }
{
    Setting {
        machine: EM_X86_64,
        dirs,
        lib: None,
        platform: None,
    }
}

/// The same for the default directories.
pub fn default_setting(alloc: Global) -> Result<Setting, NoMemory>
    ensures { IfOk result (λ setting. setting ≡ default_setting) }
{
    Ok(setting_of(default_dirs(alloc)?))
}

/// The directories in which a loader looks for libraries, unless it is told otherwise.
pub fn default_dirs(alloc: Global) -> Result<List<Abs>, NoMemory>
    ensures { IfOk result (λ dirs. dirs ≡ default_dirs_list) }
{
    let mut dirs = List::new(alloc);
    push_directories(alloc, &mut dirs)?;
    Ok(dirs)
}

fn push_directories(alloc: Global, dirs: &mut List<Abs>) -> Result<(), NoMemory>
    requires { dirs.old ≡ [] }
    ensures { OnOk result (dirs.new ≡ default_dirs_list) }
{
    push_directory(alloc, dirs, b"/usr/local/lib")?;
    push_directory(alloc, dirs, b"/lib/x86_64-linux-gnu")?;
    push_directory(alloc, dirs, b"/usr/lib/x86_64-linux-gnu")?;
    push_directory(alloc, dirs, b"/lib64")?;
    push_directory(alloc, dirs, b"/usr/lib64")?;
    push_directory(alloc, dirs, b"/lib")?;
    push_directory(alloc, dirs, b"/usr/lib")
}

/// Adds a path that is in normal form at the end of directories.
fn push_directory(alloc: Global, dirs: &mut List<Abs>, text: &[u8]) -> Result<(), NoMemory>
    requires { path_of text.now ≡ Ok text.now }
    ensures { OnOk result (dirs.new ≡ dirs.old ++ text.now ∷ []) }
{
    match Abs::read(alloc, text) {
        Ok(dir) => dirs.push(dir),
        Err(_) => Err(NoMemory),
    }
}
