// The functions of `exports` under the names that C calls, as a static library: each is a call of it, and promises the same.
#![tactic(auto)]

mod curves;
mod evaluations;
mod smalls;
mod tables;
mod texts;
mod version;
