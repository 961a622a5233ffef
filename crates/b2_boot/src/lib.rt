//! The boot file and the log: what the machine starts with, and what then happens.
//!
//! A boot file is a TOML document with a `quota`, a table `[[terminal]]` for each terminal, a table `[[partition]]` for each
//! partition, a table `[[platter]]` for each platter and a table `[[printer]]` for each printer, in any order. It is read in
//! three stages: the document, the rows of its tables, and the boot, whose terminals and partitions ascend by number and whose
//! platters and printers ascend by address. Fifteen checks stand between, and `boot_of` tells the first that a file fails.
//!
//! A log is a text of lines. Each is read in two stages: what its words ask, and the events of that where its numbers and
//! the boot allow it. Six checks stand between, and `log_of` tells the first line that fails one.
//!
//! A drill is a boot and a log that are made from a number, without a file.
//!
//! Stands on `b2_base` for the lexical layer, the numbers of partitions and terminals, addresses and names of files, on `b2_term` for a key, on `itoa` for numbers as text, and on
//! `toml`, whose own definition of a document decides what is one. The definitions are in `specs/`: `Rows` for what a
//! document says, and `Boots` for the checks, the boot, and what every boot of a file is: each front is a partition of its
//! terminal, and the order in which one goes round has some of its partitions, none twice; each disk is a platter that its partition may use,
//! and all sizes are in range. `LogLines` has what a line asks, `Logs` the events of the lines and what every
//! event of a log is, `Quotas` what a round gives each partition, `Alone` a boot with a group alone, `Drills` the boot and the log of a number, and `Laws` what holds of every log that passes.
#![tactic(auto)]

mod addresses;
mod alone;
mod boot;
mod boot_file;
mod by_address;
mod devices;
mod drills;
pub mod laws;
mod log;
mod log_lines;
mod numbered;
mod orders;
mod platters;
mod printers;
mod rows;

pub use boot::{Boot, BootPartition, BootPlatter, BootPrinter, BootTerminal};
pub use boot_file::{BootErr, boot_of};
pub use drills::{drill, drill_number};
pub use log::{Event, LogErr, log_of};
