//! No code: that the bound holds on a running board stands in specs/ and is proved in proofs/.
#![tactic(auto)]
