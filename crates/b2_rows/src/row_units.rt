// The units of a line with their rows, and whether a row is read at a text.
ghost use Rattle.std.specs.Prelude.{◌≡◌, ◌≤◌, ◌<◌, ◌+◌, ◌==◌, true, length, slice_get, IfSome};
ghost use Rattle.std.specs.Option.{option_map};
ghost use Rattle.b2_atom.specs.Lines.{is_line, units_of};
ghost use Rattle.b2_atom.specs.Tree.{uses_in};
ghost use Rattle.b2_rows.specs.Rows.{is_phrase, tree_at};
ghost use Rattle.b2_rows.specs.Laws.{IsRow};
ghost use Rattle.b2_rows.specs.Following.{tree_units};

use b2_atom::{LentAtoms, Uses, reads_row};

/// A unit of a line.
#[derive(Drop)]
pub struct RowUnit<'a> {
    /// The row of its statement.
    pub row: u16,
    /// Its bytes.
    pub bytes: &'a [u8],
    /// Whether an `@` name and whether FN stands in it.
    pub uses: Uses,
    /// Whether it is the last one of its line.
    pub is_last: bool,
}

/// Whether a row is read at a text of a unit. It walks the table: for tests, and for callers that can't know.
#[tactic(auto, unfolding(crate::specs::Rows::is_phrase, crate::specs::Rows::reading_row))]
pub fn is_read(row: u16, text: &[u8]) -> bool
    ensures read { result ≡ is_phrase row text.now }
{
    text.len() <= 256 && reads_row(row, text)
}

/// The bytes of a line of atoms spell a line.
pub fn spells_a_line(line: &LentAtoms<'_>)
    ensures { is_line line.now ≡ true }
{
    line.bytes();
}

/// The k-th unit of a line, counted from 0, None where there are at most k units.
#[tactic(auto, using(crate::proofs::LineTrees::none_found, crate::proofs::LineTrees::unit_is_row, crate::proofs::LineTrees::row_is, crate::proofs::LineTrees::uses_are, crate::proofs::LineTrees::tree_of_unit))]
pub fn row_unit<'a>(line: &LentAtoms<'a>, k: usize) -> Option<RowUnit<'a>>
    ensures row { option_map (λ u. u.row) result ≡ option_map (λ v. v.row) (slice_get (tree_units line.now) k) }
    ensures tree { option_map (λ u. tree_at u.row u.bytes.now) result ≡ option_map (λ v. v.tree) (slice_get (tree_units line.now) k) }
    ensures uses { option_map (λ u. u.uses) result ≡ option_map (λ v. uses_in v.tree) (slice_get (tree_units line.now) k) }
    ensures bytes { option_map (λ u. u.bytes.now) result ≡ option_map (λ u. u.bytes) (slice_get (units_of line.now) k) }
    ensures whole { IfSome result (λ u. IsRow u.row u.bytes.now (tree_at u.row u.bytes.now)) }
    ensures last { IfSome result (λ u. u.is_last ≡ (k + 1 == length (units_of line.now))) }
    ensures few { IfSome result (λ u. k < 255) }
    ensures short { IfSome result (λ u. length u.bytes.now ≤ 255) }
{
    spells_a_line(line);
    match line.find_unit(k) {
        Some(unit) => Some(RowUnit {
            row: unit.row,
            bytes: unit.cursor.rest(),
            uses: unit.uses,
            is_last: unit.is_last,
        }),
        None => None,
    }
}
