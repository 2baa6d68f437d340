#![tactic(auto)]

// What the rules of a result record are worth: exactly the results of accepted closings keep them. Statements (specs/) and their proofs
// (proofs/), and no code.
