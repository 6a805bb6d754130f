// No function: what the lines of the program `answers` say, and the lent words after a call. The code that makes the lines is in the crate
// `answers_lines`.
#![tactic(auto)]
