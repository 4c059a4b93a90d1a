//! Reads the words of an image as the compiler prints them, and prints the rule text of the image. Start with specs/Dump.antt.
#![tactic(auto)]

mod decompiler;
mod line;

pub use decompiler::restore_input;
