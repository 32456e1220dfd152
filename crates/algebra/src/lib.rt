// Mathematics only: specs/ and proofs/.
#![tactic(auto)]
