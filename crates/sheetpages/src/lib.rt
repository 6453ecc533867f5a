//! No code: the promises' pages about the order sheet stand in specs/; proofs/ proves each sentence under its name.
#![tactic(auto)]
