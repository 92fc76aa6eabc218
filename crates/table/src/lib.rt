// The table of a settings file: sections and entries, from the file's bytes.
#![tactic(auto)]

mod builder;
mod error;
mod kinds;
mod order;
mod reader;
mod sections;
mod state;
mod steps;

pub use error::Error;
pub use lines::Refusal;
pub use reader::read;
pub use state::Counts;
