//! The tokens of rule texts and epoch lines: byte classes, keywords and numbers. Each reader answers what stands in front of a text,
//! and what is left behind it. Start with specs/Lines.antt (lines and tokens) and specs/Token.antt (what a token is read as).
#![tactic(auto)]

mod class;
mod hex;
mod scan;

pub use class::{Class, hex_value, is_digit};
pub use hex::hex_digits;
pub use scan::{
    action, at_token_end, digits, event, keyword, number, reading, skip_line, skip_spaces,
};
