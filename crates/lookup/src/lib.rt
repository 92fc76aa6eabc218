// Look-up in the table that stands in buffers: of any size, with any numbers in them, and any counts.
#![tactic(auto)]

mod error;
mod lent;
mod records;
mod search;
mod values;

pub use error::Error;
pub use lent::Lent;
pub use lines::Refusal;
pub use search::Which;
pub use values::Part;
