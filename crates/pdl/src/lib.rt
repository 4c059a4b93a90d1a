//! What an epoch yields under a policy: the proposed, the accepted and the cancelled actions, and that they are what Chomicki, Lobo
//! and Naqvi, "Conflict Resolution Using Logic Programming" (TKDE 2003), define. There is no code here: the engine runs words, and is
//! proved to do what is defined here. Start with specs/Yield.antt.
#![tactic(auto)]
