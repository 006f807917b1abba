// The theory of marking: what is claimed of a collected heap (specs/) and its proofs (proofs/), and no function.
#![tactic(auto)]
