//! Records that follow one another, each as far behind the one before it as that one says.

ghost use Rattle.std.specs.Prelude.{◌≡◌, ◌<◌, ◌+◌, OnOk};
ghost use Rattle.answers.specs.Answers.{TellsBy};
ghost use Rattle.byte_view.specs.declared.constants.TheConstants.{HIGHEST_END};
ghost use Rattle.load_model.specs.VersionFlaws.{bad_next};
ghost use Rattle.version_tables.specs.Faults.{version_fault_flaw};

use crate::faults::{VersionFault, flawed};
use byte_view::flaws::VERSION_COUNT;

/// Is record `k`, counted from 0, the last of `said` exactly where it says that none follows?
pub(crate) fn check_next(said: u64, k: u64, next: u32) -> Result<(), VersionFault>
    requires { k < HIGHEST_END }
    ensures flaw { TellsBy version_fault_flaw result (bad_next said k next) }
    ensures step { OnOk result (k + 1 < said → 0 < next) }
{
    let found = k + 1;
    if found < said && next == 0 {
        return Err(flawed(VERSION_COUNT, said, found));
    }
    if found == said && next != 0 {
        return Err(flawed(VERSION_COUNT, said, found + 1));
    }
    Ok(())
}
