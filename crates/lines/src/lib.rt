// A trace's lines, and feeding them byte by byte, have no code of their own: specs/ defines them and proofs/ has the laws of both.
#![tactic(auto)]
