// Lists that ascend by a key: specs/ has the definitions, proofs/ the laws. There is no code.
#![tactic(auto)]
