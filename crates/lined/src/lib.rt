//! Machines that answer lines. A machine of parts takes its lines as they come; a machine of lines is handed each whole, or as much of it as
//! a lent buffer has room for. However the input is cut into reads, what they print is the same. Start with specs/Lines.antt.
#![tactic(auto)]

mod conversation;
mod line;
mod lined;
mod part;
mod parted;

pub use conversation::{answer_lines, answer_parts};
pub use line::LineMachine;
pub use part::PartMachine;
