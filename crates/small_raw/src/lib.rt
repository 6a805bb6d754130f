// The small readers of moxcms whose types have codes and plain bytes, a module each: `sig `, `dtim` and `cicp`. A size of 0 is an ordinary
// size.
// Profile, entry and size are handed in one by one, as moxcms does and docs/SCOPE.md says.
#![tactic(auto)]

mod cicp;
mod dtim;
mod sig;

pub use cicp::{FULL, full_range, read_cicp_tag};
pub use dtim::read_date_time_tag;
pub use sig::read_tech_tag;
pub use small_meaning::CicpCodes;
