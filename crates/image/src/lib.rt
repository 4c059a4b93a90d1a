//! Which images the loader takes, and going over the lines of one. Start with specs/Check.antt.
#![tactic(auto)]

mod load;
mod taken;
mod walker;

pub use load::{IMAGE_SIZE, load_image};
pub use taken::Image;
pub use walker::Walker;
