// The readers and the evaluation for C and for Rust: numbers and slices only. A function returns a status: 0 value, 1 to 17 and 19 the number of
// a refusal, 100 absent, 101 default, 102 where `out` or a `lut` has fewer words than the layout, and then nothing is read or written. The words of
// a value stand in front of `out`, in the order that the comment over the function gives; the rest of it stays, and all of it on any other
// status. Signed numbers are 32-bit words in two's complement, and a word of `out` has 64 bits.
#![tactic(auto)]

mod curves;
mod evaluations;
mod smalls;
mod tables;
mod texts;
mod version;

pub use curves::khalyksor_read_trc_tag;
pub use evaluations::{khalyksor_evaluate, khalyksor_evaluate_row};
use export_words::NO_ROOM;
pub use smalls::{
    khalyksor_full_range, khalyksor_read_chad_tag, khalyksor_read_cicp_tag,
    khalyksor_read_date_time_tag, khalyksor_read_meas_tag, khalyksor_read_tech_tag,
    khalyksor_read_viewing_conditions, khalyksor_read_xyz_tag,
};
pub use tables::{khalyksor_entry_at, khalyksor_read_lut_tag};
pub use texts::khalyksor_read_string_tag;
pub use version::khalyksor_version;
