//! The language as atoms.
//!
//! The whole language is one table of forms: what a line, an expression and each statement are made of. One walk over it
//! reads typed lines as well as atoms, and writes nothing, atoms or the canonical source. Adding a statement of known
//! words is adding a row.
//!
//! Stands on `b2_base`. `Atoms::of` is None exactly on lists of bytes that spell no line; `Atoms::read` gives the atoms of
//! a typed line, or the first code and its place; `Atoms::source` gives the canonical source of a line. A line keeps where
//! its units stand, the row of each and what it uses, so that `units`, `unit`, `find_unit` and `skip` look them up. Which trees the table allows is said
//! without any reading, and the laws in `laws` tie them to their atoms, to their source and to the units of a line.
//!
//! The definitions are in `specs/`: the words in `Words`, tokens and their source in `Tokens`, trees in `Tree`, what is
//! typed by hand in `Leaves`, the language's own table in `Table`, reading by it in `Grammar`, lines with their units in
//! `Lines`, which texts spell which tokens in `Spelling`, which trees the rows allow in `Fitting`, the units of a line on its
//! tree in `Units`, and the laws in `Laws`.
#![tactic(auto)]

ghost use Rattle.std.specs.Prelude.{◌≡◌, map};
ghost use Rattle.b2_atom.specs.Table as spec;
ghost use Rattle.b2_atom.specs.Words.{all_words};

mod forms;
mod laws;
mod leaves;
mod line;
mod output;
pub mod rows;
mod spans;
mod starts;
mod symbols;
mod table;
mod walk;
pub mod words;

pub use laws::{
    each_line_spells_a_tree, each_tree_is_a_line, each_tree_is_cut_into_units,
    each_tree_is_read_from_its_atoms, each_unit_is_a_statement, each_unit_is_read_by_its_row,
    no_two_trees_share_atoms, what_is_listed_is_read_back, what_is_read_fits_the_rows,
    what_is_read_is_a_line,
};
pub use leaves::{
    address_width, alpha_name_width, any_name_width, function_name_width, hex_digit_width,
    hex_pair_width, image_width, is_alpha_name, literal_width, local_name_width, number_width,
    numeric_name_width, relation_width, signed_number_width, slot_width, small_width,
};
pub use line::{Atoms, Cursor, FoundUnit, LentAtoms, read_source, reads_row, source_of};
pub use output::{Stop, Uses};
pub use spans::Span;
use table::{FORMS, ROWS_0, ROWS_1, ROWS_2, ROWS_3};
use words::WORDS;
pub use words::{
    CLEAR, DATA, DC, DEFFN, DEFFN_PRIME, END, GOTO, LIST, NO, Origin, PRINT, REM, ROUND, RUN,
    SELECT,
};

/// The table and the words that the code walks over are the language's.
pub fn table_is_the_language()
    ensures first { map (λ r. r.now) ROWS_0 ≡ spec.rows_0 }
    ensures second { map (λ r. r.now) ROWS_1 ≡ spec.rows_1 }
    ensures third { map (λ r. r.now) ROWS_2 ≡ spec.rows_2 }
    ensures fourth { map (λ r. r.now) ROWS_3 ≡ spec.rows_3 }
    ensures statements { FORMS ≡ spec.forms }
    ensures words { map (λ w. w.now) WORDS ≡ all_words }
{}
