//! No code: the three demands as named types stand in specs/, and proofs/ proves each under its name.
#![tactic(auto)]
