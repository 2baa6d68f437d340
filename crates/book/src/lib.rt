// A whole book: reading it, closing what it leaves, and the result bytes.
#![tactic(auto)]

pub mod settling;
