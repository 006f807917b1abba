// Demand 3: one claim over every list of calls, proved of the definitions of `model`. No code here:
// the claim stands in specs/Demand.antt, its proof in proofs/.
#![tactic(auto)]
