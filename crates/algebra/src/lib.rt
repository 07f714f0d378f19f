// Algebra for the proofs of other crates: specs/ has definitions, proofs/ laws. There is no code.
#![tactic(auto)]
