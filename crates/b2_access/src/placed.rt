// The statement at a place.
ghost use Rattle.std.specs.Prelude.{◌≡◌, ◌<◌, IfSome, option_map, Some};
ghost use Rattle.b2_atom.specs.Tree.{uses_in};
ghost use Rattle.b2_rows.specs.Laws.{IsRow};
ghost use Rattle.b2_rows.specs.Rows.{tree_at};
ghost use Rattle.b2_access.specs.Placed as spec;

use b2_atom::{Atoms, LentAtoms};
use b2_flow::Place;
use b2_rows::{RowUnit, row_unit};
use b2_text::Text;

/// A statement of a line where it was found, with the texts that it sees.
#[derive(Clone, Copy)]
pub struct Found<'a> {
    /// The text of the partition.
    pub own: &'a Text,
    /// The text of its home.
    pub home: &'a Text,
    /// Its line.
    pub line: &'a LentAtoms<'a>,
    /// Its unit.
    pub unit: &'a RowUnit<'a>,
    /// Its place.
    pub place: Place,
}

/// The line of a place: one of the text at home, or the immediate line.
pub fn line_named<'a>(
    immediate: &'a Option<Atoms>,
    home: &'a Text,
    n: Option<u16>,
) -> Option<LentAtoms<'a>>
    ensures { result ≡ spec.line_named immediate.now home.now.lines n }
{
    match n {
        Some(n) => match home.line(n) {
            Some(line) => Some(line.lend()),
            None => None,
        },
        None => match immediate {
            Some(line) => Some(line.lend()),
            None => None,
        },
    }
}

/// The k-th statement of a line.
#[tactic(auto, using(crate::proofs::Statements::statement_is))]
pub fn statement_on<'a>(line: &LentAtoms<'a>, k: usize) -> Option<RowUnit<'a>>
    ensures statement { option_map (λ u. record { row = u.row; tree = tree_at u.row u.bytes.now }) result ≡ spec.statement_on (Some line.now) k }
    ensures whole { IfSome result (λ u. IsRow u.row u.bytes.now (tree_at u.row u.bytes.now)) }
    ensures uses { IfSome result (λ u. u.uses ≡ uses_in (tree_at u.row u.bytes.now)) }
    ensures few { IfSome result (λ u. k < 255) }
{
    row_unit(line, k)
}

/// The statement at a place.
pub fn statement_placed<'a>(
    place: Place,
    immediate: &'a Option<Atoms>,
    home: &'a Text,
) -> Option<RowUnit<'a>>
    ensures statement { option_map (λ u. record { row = u.row; tree = tree_at u.row u.bytes.now }) result ≡ spec.statement_placed place immediate.now home.now.lines }
    ensures whole { IfSome result (λ u. IsRow u.row u.bytes.now (tree_at u.row u.bytes.now)) }
    ensures uses { IfSome result (λ u. u.uses ≡ uses_in (tree_at u.row u.bytes.now)) }
{
    match line_named(immediate, home, place.line) {
        Some(line) => statement_on(&line, usize::from(place.unit)),
        None => None,
    }
}
