// The 13 steps of document 01's printed example, shown by calculation in proofs/: no code stands here.
#![tactic(auto)]
