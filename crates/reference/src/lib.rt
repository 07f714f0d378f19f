// The reference values: one list in specs/Rows.antt, and one claim about it in proofs/Hold.antt. There is no code.
#![tactic(auto)]
