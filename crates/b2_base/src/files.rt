// An open data file, and how its place is moved.
use crate::{Addr, Name8};

/// An open data file with a place in it.
#[derive(Clone, Copy)]
pub struct Slot {
    /// The device that the file is on.
    pub addr: Addr,
    /// The file's name.
    pub name: Name8,
    /// The file's first sector.
    pub start: u32,
    /// The file's last sector, which is its control sector.
    pub end: u32,
    /// The sector at which the next record is saved or loaded.
    pub pos: u32,
}

/// How the place in a data file is moved.
#[derive(Clone, Copy)]
pub enum By {
    /// Over a number of records towards the end.
    Forward(u32),
    /// Over a number of records towards the beginning.
    Back(u32),
    /// To the file's first sector.
    Begin,
    /// To the end mark.
    End,
}
