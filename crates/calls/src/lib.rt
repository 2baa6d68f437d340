#![tactic(auto)]

// Sequences of calls of the ledger: definitions (specs/), the statements about them with their proofs (proofs/), and no code.
