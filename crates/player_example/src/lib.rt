// The text of document 01's printed example, shown by calculation in proofs/: no code stands here.
#![tactic(auto)]
