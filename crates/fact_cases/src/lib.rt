// The marked cases of document 01 and its whole run, byte for byte, proved from the rules. No code: see specs/ and proofs/.
#![tactic(auto)]
