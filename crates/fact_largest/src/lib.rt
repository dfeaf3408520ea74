// Request 6's cases, met at the largest sizes that may be lent, and the room that a lent word has for them. No code: see specs/ and proofs/.
#![tactic(auto)]
