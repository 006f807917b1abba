// Every call keeps the audit: laws of the definitions of `model`, below the code, which may go on
// after a call, and below `history`. No code here; the laws stand in proofs/.
#![tactic(auto)]
