//! What a word of an image says: its fields, and the operations, relations, constants and parts of a line that the fields stand
//! for, both ways. Start with specs/Operation.antt.
#![tactic(auto)]

mod fields;
mod operation;
mod said;

pub use fields::{first, first_if, opcode, second, skip};
pub use operation::{
    Operation, comparison_word, constant_comparison, constant_holds, ending_word,
    reading_comparison, reading_holds, test_word,
};
pub use said::{LinePart, effect_of, part_at};
