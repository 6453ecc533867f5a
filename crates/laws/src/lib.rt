//! No code: the laws of numbers, lists and tests that the crates above share stand in specs/ and proofs/.
#![tactic(auto)]
