// The small readers of moxcms whose types have XYZ numbers, a module each: `meas`, `view` and `XYZ `. A size of 0 is an ordinary size.
// Profile, entry and size are handed in one by one, as moxcms does and docs/SCOPE.md says.
#![tactic(auto)]

mod meas;
mod view;
mod xyz;

pub use meas::read_meas_tag;
pub use small_meaning::{Measurement, ViewingConditions, XyzNumber};
pub use view::read_viewing_conditions;
pub use xyz::read_xyz_tag;
