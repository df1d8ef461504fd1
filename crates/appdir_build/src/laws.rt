//! Laws of the definitions alone: the contracts of functions that do nothing.

ghost use Rattle.std.specs.Prelude.{Ok, Err};
ghost use Rattle.app_config.specs.declared.config.Config.{Config};
ghost use Rattle.load_model.specs.World.{World};
ghost use Rattle.refusals.specs.declared.refusal.Refusal.{Refusal};
ghost use Rattle.appdir_build.specs.AppRun.{EndsWithAppRun};
ghost use Rattle.appdir_build.specs.Outcome.{Outcome, Package};

/// A configuration comes to a package in a world, or is refused, and never both.
pub fn at_most_one_outcome()
    ensures { (world : World) (config : Config) (made : Package) (refusal : Refusal)
        → Outcome world config (Ok made)
        → Outcome world config (Err refusal)
        → ⊥ }
{}

/// The last file of each package is `AppRun`, which may be run, and no other has its path.
pub fn app_run_is_last()
    ensures { (world : World) (config : Config) (made : Package)
        → Outcome world config (Ok made)
        → EndsWithAppRun made.files }
{}
