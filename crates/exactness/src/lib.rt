//! What is proved of the loader beyond its contracts: it takes exactly the images of policies within the limits, and refuses others
//! with the right fault at the right location. There is no code here. Start with specs/Exact.antt, then proofs/Exact.antt.
#![tactic(auto)]
