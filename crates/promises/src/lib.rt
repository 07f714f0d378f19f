// The three demands: specs/ states them about the definitions, proofs/ proves them. There is no code.
#![tactic(auto)]
