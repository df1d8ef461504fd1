//! The law of the libraries of a host, the contract of a function that does nothing.

ghost use Rattle.std.specs.Prelude.{All};
ghost use Rattle.std.specs.List.{Contains};
ghost use Rattle.host_list.specs.Meeting.{HostMeets};
ghost use Rattle.host_record.specs.declared.records.RecLib.{RecLib};
ghost use Rattle.host_record.specs.declared.records.Record.{Record};
ghost use Rattle.load_model.specs.Faces.{face_or_flaw};
ghost use Rattle.load_model.specs.World.{World};
ghost use Rattle.load_model.specs.declared.setting.Setting.{Setting};
ghost use Rattle.met_hosts.specs.Libraries.{AreApart, HasLibrary};
ghost use Rattle.path_text.specs.FileName.{IsFileName};
ghost use Rattle.path_text.specs.Path.{IsNormalPath};

/// A host that meets a record has a file for each of its libraries, and different files for
/// different ones.
pub fn recorded_libraries_are_there()
    ensures there { (setting : Setting) (world : World) (r : Record) (lib : RecLib)
        → All IsNormalPath setting.dirs → HostMeets face_or_flaw setting world r
        → Contains r.libs lib → IsFileName lib.name → HasLibrary setting world lib }
    ensures apart { (setting : Setting) (world : World) (r : Record)
        → All IsNormalPath setting.dirs → HostMeets face_or_flaw setting world r
        → AreApart setting world r.libs }
{}
