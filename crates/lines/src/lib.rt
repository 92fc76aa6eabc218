// Settings files, from bytes to logical lines.
#![tactic(auto)]

mod bytes;
mod error;
mod file;
mod joiner;
mod physical;
mod refusal;
mod utf8;

pub use bytes::{
    copy_into, is_between, is_blank, is_control, is_digit, is_header_byte, is_key_byte, is_letter,
    same, trim, trim_end, trim_start,
};
pub use error::Error;
pub use file::check_file;
pub use joiner::{Cursor, LogicalLine, next_line};
pub use physical::is_continued;
pub use refusal::Refusal;
pub use utf8::well_formed_length;
