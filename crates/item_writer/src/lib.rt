// Lists of items written as the text of a setting.
#![tactic(auto)]

mod writer;

pub use writer::write;
