// The codes of an event on small states, shown by calculation in proofs/: no code stands here.
#![tactic(auto)]
