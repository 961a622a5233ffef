//! What all crates of the machine have in common.
//!
//! The small values: codes of errors, numbers of partitions and terminals, device addresses, names, a list of bytes, an
//! open file.
//! The lexical layer (`lexical`): kinds of bytes, digits, and the fronts of texts, which all crates use from here.
//! The outside: a `Shelf` of files and a `Sink` for text, in memory, and over a `FileSystem` and a writer. A call that gives
//! up shows why by counts that never fall. `HostFiles`, the file system of the running program, is the trusted edge.
//!
//! Stands on `arrayvec` alone. The definitions are in `specs/`, one file for each concept: a code, a number or a name is
//! seen in contracts as its number or its bytes, what a shelf and a sink promise is in `Outside`, bytes have their names in
//! `Byte`, and `Lexical` has what kinds of bytes there are.
#![tactic(auto)]

mod addresses;
mod bytes;
pub mod codes;
mod file_name;
mod file_system;
mod files;
mod host;
mod laws;
pub mod lexical;
mod line_text;
mod memory;
mod name8;
mod outside;
mod pieces;
mod places;
mod real;
mod steps;

pub use addresses::{Addr, AddrList};
pub use bytes::{ByteList, NoMemory};
pub use codes::{Code, Fault};
pub use file_name::FileName;
pub use file_system::{FileSystem, Opened};
pub use files::{By, Slot};
pub use host::HostFiles;
pub use laws::what_rose_is_greater;
pub use line_text::LineText;
pub use memory::{MemShelf, MemSink};
pub use name8::Name8;
pub use outside::{Fetch, Keep, Shelf, Sink};
pub use pieces::cut;
pub use places::{Part, Term};
pub use real::{FileShelf, OutSink};
pub use steps::Steps;
