// The library for programs in C, and in whatever calls as C does: each call with numbers and slices alone. A slice is a
// pointer and a length. Each answers the number of the refusal, 0 where it is accepted, and has a report as its last
// slice; include/havtsulen.h says what a caller has to know. The crate `havtsulen_c` exports them.
#![tactic(auto)]

mod files;
mod item_lists;
mod questions;
mod report;
mod settings;
mod told;

pub use files::{
    havtsulen_check_file, havtsulen_normal_text, havtsulen_read, havtsulen_well_formed_length,
};
pub use item_lists::{havtsulen_split, havtsulen_write};
pub use questions::{havtsulen_find, havtsulen_value, havtsulen_value_check};
pub use settings::{havtsulen_boolean, havtsulen_span};
