//! Which texts and epoch lines are accepted, and for what the others are refused: laws of the definitions below it that no
//! function needs, and examples of them. Start with specs/Refusals.antt.
#![tactic(auto)]
