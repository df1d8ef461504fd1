//! Laws of the definitions alone: the contracts of functions that do nothing.

ghost use Rattle.std.specs.Prelude.{◌≡◌, Option};
ghost use Rattle.app_config.specs.declared.config.Config.{Config};
ghost use Rattle.load_model.specs.World.{World};
ghost use Rattle.refusals.specs.declared.file_refusal.FileRefusal.{FileRefusal};
ghost use Rattle.extra_files.specs.Faults.{IsExtraFault};

/// The desktop file, the icon and the data files of a configuration have one first fault, or none.
pub fn one_extra_fault()
    ensures { (world : World) (config : Config) (a b : Option FileRefusal)
        → IsExtraFault world config a → IsExtraFault world config b → a ≡ b }
{}
