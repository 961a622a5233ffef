//! The store that all partitions share: program texts, `@` variables, terminals, printers, and platters, with who holds each
//! device.
//!
//! `Stores` is a store as definitions see it, kept as rows by the numbers of partitions and terminals and the addresses of
//! devices, and serves the accesses of partitions as `b2_access` defines it. It lends texts by reference, and `@` variables or a
//! spare where none are found. `PlainStores` means and does the same, and is kept in two lists that are walked from the front.
//!
//! Stands on `b2_access` for what a store, its serving and its loans are, on `b2_text`, `b2_vars`, `b2_term` and `b2_platter`
//! for what objects have, on `b2_catalog`, `b2_datafile`, `b2_progfile` and `b2_raw` for what a disk does, on `b2_atom` for lines and on `b2_base`. The definitions are in
//! `specs/`: the store that `Stores` means in `Meaning`, and that `PlainStores` does in `Plain`, by its items in `Kept`, `@` variables and the spare in `Spares`, who holds names in `Names`, who
//! stands inside texts in `Inside`, what an edit gives back in `Giving`, how the store starts in `Start`, what keys and fronts change
//! in `Changes`, and what disks do to an image in `DiskWork`. What becomes of files on its platters (`Files`), and that each answer
//! fits what was asked, stands in `laws`. What is asked of a store is done over look-ups (`lookups`), so once for both,
//! in a file for each kind: `text_calls`, `name_calls`, `terminal_calls`, `device_calls`, `disk_calls` and `sector_calls`; what stops it is in `stops`.
#![tactic(auto)]

mod boot;
mod borrows;
mod data_files;
mod device_calls;
mod disk_calls;
mod disks;
mod ends;
mod insiders;
mod kept_item;
mod kept_list;
pub mod laws;
mod lenders;
mod lookups;
mod name_calls;
mod names;
mod outside;
mod plain;
mod plain_lookups;
mod printer;
mod programs;
mod refusals;
mod row_lookups;
mod rows;
mod sector_calls;
mod sectors;
mod serving;
mod spared;
mod start;
mod stops;
mod stores;
mod terminal_calls;
mod text_calls;
mod two_rows;
mod work;

pub use boot::StoreBoot;
pub use ends::Ends;
pub use plain::PlainStores;
pub use printer::Printer;
pub use rows::{Key, Rows};
pub use stores::Stores;
