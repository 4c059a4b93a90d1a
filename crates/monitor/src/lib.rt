//! The monitor: what is decided on an image and an epoch line. Start with specs/Decision.antt.
#![tactic(auto)]

mod actions;
mod decision;
mod events;
mod state;
mod waiting;

pub use decision::{Actions, decide};
pub use state::{Decided, State, advance, step};
