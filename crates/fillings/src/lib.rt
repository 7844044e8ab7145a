// What Valid, Invalid and Unknown say of records that are not yet filed: specs/ has the definitions and the statements, proofs/ the proofs. There is no code.
#![tactic(auto)]
