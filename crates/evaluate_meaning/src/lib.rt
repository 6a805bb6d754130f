// Colours between the points of a colour table: what each call must answer in specs/, and what follows from it in proofs/. No function: the code is
// in the crates `evaluate` and `evaluate_plain`.
#![tactic(auto)]
