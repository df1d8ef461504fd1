//! Texts of paths: absolute ones in normal form, the targets of a directory's items, and file
//! names.
#![tactic(auto)]

mod absolute;
mod laws;
mod memory;
mod naming;
mod normal;
mod relative;
mod scan;

pub use absolute::{Abs, PathFault};
pub use laws::{
    folder_and_base_join, normal_path_is_read_unchanged, read_path_is_normal,
    read_target_is_target, target_is_read_unchanged, target_joins_behind_path,
};
pub use memory::NoMemory;
pub use naming::is_file_name;
pub use relative::{Rel, RelFault};
