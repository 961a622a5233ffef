//! Frames of loops and calls: a stack of at most 200 frames, the highest of which belongs to what runs.
//!
//! Stands on `b2_base` for codes and partitions and on `b2_dec` for numbers. A `Stack` takes its memory once, in `new`;
//! no later call takes any.
//!
//! A `Stack` is seen in contracts as the list of its frames, the highest first. `specs/Frames` says what a frame is asked
//! about, and `Stacks` what each call finds, leaves and refuses: a NEXT looks for its loop no further than the nearest
//! call, so it never drops a call. Every call that refuses leaves all as it was. `laws` says what holds of these
//! definitions themselves.
#![tactic(auto)]

mod frame;
pub mod laws;
mod search;
mod stack;

pub use frame::{Frame, Place, Var2};
pub use stack::Stack;
