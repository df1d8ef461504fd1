//! The plain types of the loader's model, and in `specs/` the model itself.
#![tactic(auto)]

mod asks;
mod bytes;
mod escaping;
mod face_tables;
mod faces;
mod flaw_laws;
mod laws;
pub mod limits;
mod lists;
mod offers;
mod opening;
mod refusals;
mod runs;
mod search_laws;
mod setting;
mod symbol_words;
mod symbols;
mod world;

pub use asks::Ask;
pub use byte_view::Flaw;
pub use bytes::{Name, Text};
pub use escaping::{escape, escape_is_field, escape_onto};
pub use face_tables::FaceTable;
pub use faces::Face;
pub use flaw_laws::each_flaw_is_named;
pub use laws::{
    a_list_or_one_stop, a_name_goes_to_one_object, always_a_list_or_a_stop, at_most_one_load_list,
    at_most_one_local_list, each_need_is_asked, list_is_found_by_recursion, loaders_come_before,
    objects_are_the_targets, odd_name_has_no_path, recursion_gives_the_list,
    recursion_gives_the_stop, run_in_two_worlds,
};
pub use lists::List;
pub use offers::{
    Offers, has_wanted_version, is_bindable, is_candidate, is_first_version, is_shared,
};
pub use opening::{OpenFault, Opened, Opener};
pub use path_text::NoMemory;
pub use refusals::LoadRefusal;
pub use runs::{Bind, Def, Obj, Piece, Replay, Run};
pub use search_laws::{
    diamond_loads_breadth_first, first_candidate_decides, items_are_expanded, joined_is_path,
    run_paths_along_the_chain, same_names_load_alike, search_opens_up_to_deciding,
    small_host_loads_alike,
};
pub use setting::Setting;
pub use symbol_words::has_value;
pub use symbols::{Class, RawSym, Sym, Ver};
pub use world::WorldFile;
