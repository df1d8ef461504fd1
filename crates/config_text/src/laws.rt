//! Laws of the definitions.

ghost use Rattle.std.specs.Prelude.{◌≡◌, List, ℕ, Ok};
ghost use Rattle.app_config.specs.Ready.{IsReady};
ghost use Rattle.app_config.specs.declared.config.Config.{Config as Told};
ghost use Rattle.config_text.specs.Reading.{config_read};

/// What a text is read as is ready: a build may be made of it.
pub fn read_is_ready()
    ensures { (bytes : List ℕ) (config : Told) → config_read bytes ≡ Ok config → IsReady config }
{}
