// A table of any size, read as a bench, has no code of its own: specs/ defines what its arrays say and proofs/ has the laws.
#![tactic(auto)]
