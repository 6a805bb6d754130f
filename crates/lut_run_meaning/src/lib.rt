// No function: what a run of curves means, and the laws of it. The code that reads runs is in the crate `lut`.
#![tactic(auto)]
