// Demand 3 of document 01: whose frames are whose after any calls from a fresh start. No code: see specs/ and proofs/.
#![tactic(auto)]
