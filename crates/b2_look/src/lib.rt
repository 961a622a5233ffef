//! What is shown of one file: the screen that a transcript leaves, and whether a disk image is good.
//!
//! Stands on `b2_base` for the outside, on `b2_status` for how a call ends, on `b2_screen` for the screen of bytes, and on `b2_raw` for the
//! report on an image. The definitions: `Rows` has the lines of a screen, and `Shows` what is shown of a file and when each status comes.
#![tactic(auto)]

mod rows;
mod shows;

pub use shows::{View, show};
