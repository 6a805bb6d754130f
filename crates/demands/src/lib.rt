// No function: the three demands over all readers and evaluators, and the worked cases.
#![tactic(auto)]
