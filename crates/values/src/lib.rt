// Values of settings: booleans and time spans.
#![tactic(auto)]

mod booleans;
mod error;
mod spans;

pub use booleans::boolean;
pub use error::Error;
pub use lines::Refusal;
pub use spans::span;
