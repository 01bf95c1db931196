// What definitions and proofs share of tables, tests and lists, in specs/ and proofs/: no code stands here.
#![tactic(auto)]
