// The archive for programs in C: each call of `havtsulen` once more, with the C calling convention and under its own
// name. include/havtsulen.h says what a caller has to know.
#![tactic(auto)]

mod files;
mod item_lists;
mod questions;
mod settings;

pub use files::{
    havtsulen_check_file, havtsulen_normal_text, havtsulen_read, havtsulen_well_formed_length,
};
pub use item_lists::{havtsulen_split, havtsulen_write};
pub use questions::{havtsulen_find, havtsulen_value, havtsulen_value_check};
pub use settings::{havtsulen_boolean, havtsulen_span};
