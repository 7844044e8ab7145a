// What each call answers and leaves: specs/ has the definitions and the statements over them, proofs/ the proofs. There is no code.
#![tactic(auto)]
