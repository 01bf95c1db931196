// The saved text of document 01's printed example after seven events, shown by calculation in proofs/: no code stands here.
#![tactic(auto)]
