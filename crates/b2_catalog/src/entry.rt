// A file in the catalogue.
use b2_base::Name8;

/// A file in the catalogue.
#[derive(Clone, Copy)]
pub struct Entry {
    /// Its name.
    pub name: Name8,
    /// Whether it is live; else it is scratched.
    pub live: bool,
    /// Whether it is a program; else it is data.
    pub program: bool,
    /// Its first sector.
    pub start: u32,
    /// Its last sector, which is its control sector.
    pub end: u32,
    /// How many of its sectors are used.
    pub used: u32,
}
