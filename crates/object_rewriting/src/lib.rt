//! The new bytes of one program or library, read once more from the tree.
#![tactic(auto)]

mod growing;
mod laws;
mod naming;
mod rewriting;
mod stops;

pub use laws::rewritten_has_face;
pub use rewriting::rewrite;
pub use stops::RewritingStop;
