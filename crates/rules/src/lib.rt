// Moss's rules have no code of their own: specs/ defines them and proofs/ has the theorems about them.
#![tactic(auto)]
