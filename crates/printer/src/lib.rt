//! Rule texts written from policies. Start with specs/Printed.antt (the text of a policy), then proofs/Printing.antt (reading
//! it back yields the policy). The functions put the text of a line into a sink of `output`.
#![tactic(auto)]

mod line;
mod part;

pub use line::put_line;
