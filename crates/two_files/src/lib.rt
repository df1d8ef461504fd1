//! Two files, of which the second keeps what the first has but for some texts: laws of what a
//! loader sees of both, with definitions in `specs/`.
#![tactic(auto)]

mod laws;

pub use laws::{
    entries_fine, image_unmoved, new_face, same_image, same_words, symbols_kept, versions_kept,
};
