//! What the words of an image do when they are run by their operations and skips, and how many are fetched: the rule part on the
//! events and readings of an epoch, the constraint part on a set of actions. Start with specs/Run.antt.
#![tactic(auto)]

mod constraints;
mod reach;
mod rules;
mod test;
mod triggers;
mod waiting;

pub use constraints::{Trial, run_constraints};
pub use rules::{Yielded, run_rules};
pub use triggers::reserved;
pub use waiting::Waiting;
