//! The world: partitions that share a store, and what happens to them.
//!
//! A `World` starts by a boot and runs the events of a log. A key is queued at a terminal, a partition is put in front of one,
//! halted or reset, or has a turn; in a round each partition that is present has one, by number. Turns, counting steps and
//! dropped keys are counted. Each turn runs over the store while that is watched, so the world knows which partitions are clean.
//!
//! `Basic` is the `Language` that all partitions run: each statement is planned and finished by the crate of its row, most of them
//! where their unit was found. What holds of the statements of each crate holds of the language.
//!
//! Stands on `b2_machine` for a turn, on `b2_language` for what a language is, on `b2_stmt_var`, `b2_stmt`, `b2_stmt_io`, `b2_stmt_mat`,
//! `b2_stmt_pack`, `b2_stmt_disk` and `b2_stmt_file` for statements, on `b2_store` for the store,
//! on `b2_audit` for the watch and its marks, on `b2_access` for what a partition has for itself, on `b2_boot` for boots and events, on
//! `b2_rows`, `b2_text`, `b2_flow` and `b2_atom` for units, lines and places, and on `b2_base`.
//! The definitions are in `specs/`: which crate has a row in `Choice`, the laws of the language in `Lawful` and `Legal`, a turn and
//! its steps in `Turns`, a turn over a watched store in `Marking`, what events do in `World`, what each partition that is present
//! is in `Presence`, the world of a boot in `Start`, what holds of every world in `Laws`, what a group of partitions can rely on
//! in `Groups`, what becomes of files and of held devices in `Files` and `Holding`, what variables hold and what is saved in `Saving`,
//! who stands inside a text in `Inside`, and what the marks say in `Clean`.
#![tactic(auto)]

mod basic;
mod choice;
pub mod laws;
mod start;
mod world;

pub use basic::Basic;
pub use world::World;
