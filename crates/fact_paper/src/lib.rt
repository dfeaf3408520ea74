// Document 01's numbers and words a second time, each met in a case: codes, limits, the level table, what a check asks, the names of calls. There is
// no code here, only statements about the definitions that the code is proved to meet.
#![tactic(auto)]
