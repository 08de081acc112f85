// The demands, of what the compiled functions return: specs/ says them in document 01's words, proofs/ has the theorems. No code.
#![tactic(auto)]
