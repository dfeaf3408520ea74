// Calls keep answer 13's range check on any lent tables, and a run of calls may make it once. No code: see specs/ and proofs/.
#![tactic(auto)]
