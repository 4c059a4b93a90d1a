//! What the programs print, put into a sink of `output`. Start with specs/Report.antt.
#![tactic(auto)]

mod action;
mod line;
mod question;

pub use line::{
    put_accept, put_image_refusal, put_not_word, put_refusal, put_refused, put_texts_refusal,
    put_word_line,
};
pub use question::{put_not_explained, put_not_proposed, put_shown};
