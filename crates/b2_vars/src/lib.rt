//! A partition's variables: one finite map from names to shapes and values, within an area of bytes.
//!
//! `Setting` says what the expressions of a partition look at beside its variables and a text.
//!
//! Stands on `b2_base` for codes, on `b2_dec` for numbers and values, and on `b2_alpha` for the padding of what is
//! assigned.
//!
//! A `Vars` is seen in contracts as its area and a finite map, whatever order the variables were made in. `specs/Names`
//! has the order of names, `Shapes` which shapes a variable may have, what it takes and where a value stands in it,
//! `Variables` what stands under a name and what each change leaves of it, and `Tables` the map, its count, and the code
//! with which each call refuses. What is counted never passes the area; every call that refuses leaves all as it was.
//! Where several causes stand together, the first of P59, P57, P50, P53, P56, P55, P34 and A02 is the answer. `laws` says
//! what holds of these definitions themselves.
//!
//! All variables stand in one block of bytes that is taken when a `Vars` is made, with the place of each of the 1,144
//! names beside it; no other call takes memory. `specs/Block` says what the bytes mean: the map is read from them alone.
#![tactic(auto)]

mod block;
mod checks;
mod entry;
mod keeping;
pub mod laws;
mod name;
mod setting;
mod shape;
mod vars;
mod writing;

pub use name::Var;
pub use setting::Setting;
pub use shape::{LONGEST_ARRAY, LONGEST_VALUE, Shape, USUAL_LENGTH, WIDEST_ARRAY};
pub use vars::Vars;
