//! What the compiler and the engine print: from all bytes of the input to all bytes of the output, and their whole runs. Start with
//! specs/Printed.antt; the compiler's is specs/Listed.antt.
#![tactic(auto)]

mod compiler;
mod engine;
mod laws;
mod listing;
mod mode;
mod text;

pub use compiler::{TextsFailure, list_input, list_texts};
pub use engine::answer_epochs;
pub use laws::answers_wait;
