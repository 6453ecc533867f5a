//! No code: the promises' pages about the bench stand in specs/; proofs/ proves each sentence under its name.
#![tactic(auto)]
