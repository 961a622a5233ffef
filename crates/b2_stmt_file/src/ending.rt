// IF END.
ghost use Rattle.std.specs.Prelude.{◌≡◌, true};
ghost use Rattle.b2_atom.specs.declared.rows.TheConstants as row;
ghost use Rattle.b2_rows.specs.Following.{after_false, tree_units};
ghost use Rattle.b2_rows.specs.Rows.{is_phrase, tree_at};
ghost use Rattle.b2_access.specs.Dispatch.{units_on};
ghost use Rattle.b2_access.specs.Placed.{line_named};
ghost use Rattle.b2_access.specs.Places.{IsUnit};
ghost use Rattle.b2_stmt_file.specs.Ending as spec;

use b2_access::{Outcome, line_named, to_goal};
use b2_atom::{Atoms, LentAtoms};
use b2_base::lexical::rest_after;
use b2_flow::Place;
use b2_rows::{Goal, after_false, line_at, spells_a_line};
use b2_text::Text;

/// Where a false IF leads that is the k-th unit of a line.
#[tactic(auto, using(crate::proofs::GoalUnits::false_unit))]
fn goal_on(line: &LentAtoms<'_>, k: usize) -> Goal
    ensures goal { result ≡ after_false k (tree_units line.now) }
    ensures unit { IsUnit result }
{
    spells_a_line(line);
    after_false(line, k)
}

/// Where a false IF leads at a place, by the lines of the home or the immediate line.
#[tactic(auto, using(crate::proofs::EndRows::units_there, crate::proofs::EndRows::no_units))]
fn false_goal(immediate: &Option<Atoms>, home: &Text, n: Option<u16>, k: u8) -> Goal
    ensures goal { result ≡ after_false k (units_on (line_named immediate.now home.now.lines n)) }
    ensures unit { IsUnit result }
{
    match line_named(immediate, home, n) {
        Some(line) => goal_on(&line, usize::from(k)),
        None => Goal::NextLine,
    }
}

/// Where IF END leads.
#[tactic(auto, using(crate::proofs::EndRows::end_line, crate::proofs::EndRows::end_true, crate::proofs::EndRows::end_false))]
fn end_goal(
    immediate: &Option<Atoms>,
    home: &Text,
    n: Option<u16>,
    k: u8,
    at_end: bool,
    unit: &[u8],
) -> Goal
    requires phrase { is_phrase row.IF_END unit.now ≡ true }
    ensures goal { result ≡ spec.end_goal at_end k (units_on (line_named immediate.now home.now.lines n)) (tree_at row.IF_END unit.now) }
    ensures unit { IsUnit result }
{
    if at_end {
        Goal::Line(line_at(rest_after(rest_after(rest_after(unit, 1), 1), 1)))
    } else {
        false_goal(immediate, home, n, k)
    }
}

/// How IF END ends.
pub fn if_end(
    immediate: &Option<Atoms>,
    home: &Text,
    place: &Place,
    at_end: bool,
    unit: &[u8],
) -> Outcome
    requires phrase { is_phrase row.IF_END unit.now ≡ true }
    ensures { result ≡ spec.if_end at_end (record { place = place.now; units = units_on (line_named immediate.now home.now.lines place.now.line) }) home.now.lines (tree_at row.IF_END unit.now) }
{
    let goal = end_goal(immediate, home, place.line, place.unit, at_end, unit);
    to_goal(home, *place, goal)
}
