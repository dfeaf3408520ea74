// What the definitions of the calls come to, as theorems. No code: see specs/ for the statements' words and proofs/ for the theorems.
#![tactic(auto)]
