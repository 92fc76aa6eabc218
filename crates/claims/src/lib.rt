// What the demands say of several calls, as functions that make them.
#![tactic(auto)]

mod look_up;
mod round_trip;
mod two_texts;

pub use look_up::{Found, LookUpError, read_then_find};
pub use round_trip::write_then_split;
pub use two_texts::{AlikeError, Lengths, normal_twice, set_alike};
