// The history theorems: specs/ has the statements, proofs/ the proofs. There is no code.
#![tactic(auto)]
