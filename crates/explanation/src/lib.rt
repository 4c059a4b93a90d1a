//! Why an action is issued, or not: for the maker's and the site's text, an epoch line and an action, what became of it and the line
//! that says so. Start with specs/Why.antt.
#![tactic(auto)]

mod find;
mod part;
mod why;

pub use part::{Excerpt, Shown};
pub use why::{Outcome, explain, explain_on};
