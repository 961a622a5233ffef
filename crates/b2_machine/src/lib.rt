//! Steps and turns of a partition of any language, over any store that partitions share.
//!
//! A step is the first of six rules that applies: a reset, a halt, output that is pending, a literal or a line that is read, a
//! numbered line, and else the statement at the partition's place. It makes at most one access of the store. A turn is a
//! number of steps, and ends before its quota where one ends it; statements of the program that come one after another are executed over
//! one loan of texts. `step` and `turn` are proved to be the functions of `specs/`
//! over the meaning, the serving and the lending of whatever store they are given.
//!
//! Stands on `b2_language` for what statements do, on `b2_access` for the private state, accesses and the store,
//! on `b2_syntax` and `b2_lister` for lines, on `b2_rows`, `b2_text` and `b2_flow` for places, on `b2_atom` and `b2_base`.
//!
//! The definitions are in `specs/`: how a step ends in `Endings`, what is shown in `Messages`, becoming ready in `Readiness`,
//! where a partition goes on in `Moving`, LIST in `Listed`, the choice among statements in `Statements`, one that is planned at once in `AtOnce`, typed lines in
//! `Typing`, special function keys in `Keys`, which of the six rules applies in `Due`, what each does in `Step`, turns in `Turn`, statements one after another over one loan in
//! `Running`, how far a turn goes on at once in `Advancing`, and what a step touches and writes in
//! `Touched`. What holds of steps stands in `laws`.
#![tactic(auto)]

mod ends;
mod keys;
pub mod laws;
mod listed;
mod messages;
mod moving;
mod readiness;
mod rules;
mod statements;
mod stepping;
mod straight_line;
mod text_only;
mod turning;
mod typing;

pub use ends::{Stepped, Turned, Why};
pub use stepping::step;
pub use turning::turn;
