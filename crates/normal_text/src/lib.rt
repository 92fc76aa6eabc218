// The normal text of a settings file.
#![tactic(auto)]

mod links;
mod normal;
mod writer;

pub use normal::{Sizes, normal_text};
