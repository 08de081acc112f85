// What four arrays say, read as a bench, has no code of its own: specs/ defines it and proofs/ has its laws.
#![tactic(auto)]
