//! Reading the lines of a rule text. Start with specs/Grammar.antt (the shapes of a line), specs/Judge.antt (what a line is refused for)
//! and specs/Lines.antt (the lines of a text).
#![tactic(auto)]

mod draft;
mod effect;
mod line;
mod text;

pub use text::Lines;
