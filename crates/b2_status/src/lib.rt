//! How a call of the program ends: its statuses, the fetch of an input, which may end it, and the put of its last words, which does.
//!
//! Stands on `b2_base` for the outside, and on `itoa` for the numbers in a line. The definitions: `Status` has the number and the line of each
//! status, `Fetches` when the fetch of an input ends the call, and `Puts` how the put of the last words does.
#![tactic(auto)]

mod fetches;
mod puts;
mod status;

pub use fetches::fetch_input;
pub use puts::put_last;
pub use status::Status;
