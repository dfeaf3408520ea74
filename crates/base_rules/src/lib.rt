// How a rule of the paper is written down, and how a proof follows code down a rule. No code: see specs/ and proofs/.
#![tactic(auto)]
