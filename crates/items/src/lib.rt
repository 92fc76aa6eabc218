// Lists of items in the text of a setting.
#![tactic(auto)]

mod error;
mod escapes;
mod few;
mod pieces;
mod splitter;

pub use error::Error;
pub use lines::Refusal;
pub use splitter::{Counts, split};
