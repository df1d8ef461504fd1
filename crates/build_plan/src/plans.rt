//! What is decided of a configuration.

use build_runs::LoadedRuns;
use lib_closure::Split;
use name_layout::Layout;

/// The load lists of the programs, their split, and the names of the bundled libraries.
#[derive(Drop)]
pub struct Plan {
    pub loads: LoadedRuns,
    pub split: Split,
    pub layout: Layout,
}
