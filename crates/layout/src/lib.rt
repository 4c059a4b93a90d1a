//! The layout of an image: word 0, the words of a line, the check words, and writing them. Start with specs/Layout.antt.
#![tactic(auto)]

mod checksum;
mod form;
mod line;
mod word0;

pub use checksum::{Sums, check_sums, put_check_words, sum_twice, sum_words};
pub use form::{check_count, is_known_form};
pub use line::put_line;
pub use word0::{constraint_words_of, form_of, header, rule_words_of};
