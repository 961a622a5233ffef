// What a store is made of.
use b2_base::{Addr, Part, Term};
use b2_term::PartList;

/// What a store starts with: each partition with the areas of its text and of its `@` variables, and each terminal with the
/// partition in front of it and the order in which it goes round, both ascending by number; and the addresses of its printers and
/// those of its platters, both ascending.
#[derive(Drop)]
pub struct StoreBoot {
    pub partitions: Vec<(Part, usize, usize)>,
    pub terminals: Vec<(Term, Part, PartList)>,
    pub printers: Vec<Addr>,
    pub platters: Vec<Addr>,
}
