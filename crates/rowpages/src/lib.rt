//! No code: the promises' pages about row lists stand in specs/; proofs/ proves each sentence under its name.
#![tactic(auto)]
