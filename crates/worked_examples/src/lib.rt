#![tactic(auto)]

// The starred examples of document 01: definitions (specs/) and their proofs (proofs/), and no code.
