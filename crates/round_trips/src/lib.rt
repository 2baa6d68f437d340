#![tactic(auto)]

// Demand 2, its second half: both round trips of a test book and the figures of one that gives 0. Definitions (specs/) and the theorems
// (proofs/), and no code.
