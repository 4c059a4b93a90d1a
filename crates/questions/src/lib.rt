//! What the explaining program prints: from two texts and all bytes of the input, which are questions, one a line, to all bytes of the
//! output. The input is taken in chunks of any size. Start with specs/Answered.antt; what a whole run leaves is specs/Run.antt.
#![tactic(auto)]

mod answer;
mod explainer;
mod line;
mod names;
mod texts;

pub use explainer::answer_questions;
pub use texts::{ExplainFailure, explain_texts};
