//! Who touched what another had written: a watch around a shared store of any kind.
//!
//! `Watched` is a `Shared` around another one. It serves and lends as that one does, and marks in a `Seen` what each access and
//! each loan touches and writes. From `Seen` one reads off which partitions are clean: those that touched nothing which another
//! had written before. Marks take no memory but where an image is written.
//!
//! Stands on `b2_access` for objects, accesses and what a shared store is, on `b2_vars` for `@` variables, and on `b2_base`. The definitions are in `specs/`:
//! sets of partitions in `PartSets`, the marks in `Marks`, what a watched store means in `Watching`, and what the marks say
//! of a list of steps in `Steps`. That they say so stands in `laws`.
#![tactic(auto)]

pub mod laws;
mod marking;
mod part_set;
mod seen;
mod watched;

pub use seen::Seen;
pub use watched::Watched;
