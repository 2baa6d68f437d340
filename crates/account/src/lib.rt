#![tactic(auto)]

// The exact account and demand 3: definitions (specs/) and the theorem (proofs/), and no code.
