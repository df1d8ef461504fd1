//! What holds of the entries that are named as flaws.
//!
//! System V gABI, Dynamic Section. The definitions are in `specs/TagPlaces.antt` of `byte_view`.

ghost use Rattle.std.specs.Prelude.{List, []};
ghost use Rattle.byte_view.specs.DynamicFlaws.{entry_flaw};
ghost use Rattle.byte_view.specs.TagPlaces.{NamesFirstEntry};
ghost use Rattle.byte_view.specs.declared.dynamic.Entry.{Entry};

/// TagRefused or Repeated is named exactly at the first entry that is refused, or whose tag stands
/// at most once and stood before: TagRefused where that entry is refused, and else Repeated.
pub fn first_entry_is_named()
    ensures { (entries : List Entry) → NamesFirstEntry entries (entry_flaw [] entries) }
{}
