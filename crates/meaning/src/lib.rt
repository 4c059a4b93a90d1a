//! The two meanings of a policy agree: what its rules and constraints yield (pdl) is what the words of its image do when they are run
//! (run). There is no code here. Start with proofs/Meaning.antt.
#![tactic(auto)]
