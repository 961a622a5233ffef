//! Program text: lines of atoms by number, in an area of a fixed number of bytes.
//!
//! Stands on `b2_atom`, whose `Atoms` spell a line by their type, and on `b2_base`.
//!
//! A `Text` is seen in contracts as its area and the ascending list of its lines, and each call is proved to be the
//! function of `specs/`: `Program` says what lines take, which line comes after a number and what a change leaves, and
//! `Spots` where a DEFFN', a DEFFN or a DATA is found; `Trees` says the same of the trees of lines, and the laws in `laws`
//! tie the two. A text never takes more than its area, and its numbers are at most 9999.
//!
//! All memory is taken by `Text::new`: a block of the area's bytes, in which the lines lie one after another in order of their
//! numbers, each after a heading of five bytes; an index of the lines; a table of their places in it by number; where the units
//! of each line are; and the numbers of the lines that begin with DEFFN or DEFFN' and of those in which a DATA stands. `Blocks`
//! says how block, index and units go together, `Numbered` what the table has, and `Members` what the lists of numbers are.
#![tactic(auto)]

mod block;
mod laws;
mod line;
mod members;
mod numbers;
mod packed;
mod spots;
mod table;
mod text;
mod within;

pub use laws::{data_are_found, functions_are_found, marks_are_found};
pub use line::Line;
pub use spots::Spot;
pub use text::Text;
pub use within::LinesWithin;
