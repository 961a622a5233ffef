// Statements that lead elsewhere and change nothing: GOTO, IF, ELSE, ERROR and ON with GOTO.
ghost use Rattle.std.specs.Prelude.{◌≡◌, ◌<◌, true, IfOk};
ghost use Rattle.b2_atom.specs.declared.rows.TheConstants as row;
ghost use Rattle.b2_rows.specs.Following.{after_false, past_colon, tree_units};
ghost use Rattle.b2_rows.specs.Rows.{is_phrase, tree_at};
ghost use Rattle.b2_access.specs.Places.{IsUnit};
ghost use Rattle.b2_expr.specs.Scope.{surroundings};
ghost use Rattle.b2_expr.specs.Value.{in_statement};
ghost use Rattle.b2_stmt.specs.Branches as spec;

use b2_access::{Outcome, failed, named_at};
use b2_atom::words::GLOBAL_PART;
use b2_atom::{Cursor, LentAtoms};
use b2_base::Code;
use b2_base::codes::D87_FILE_NAME;
use b2_base::lexical::rest_after;
use b2_expr::{Env, condition};
use b2_rows::{Goal, after_false, is_at, line_at, past_colon, spells_a_line};

/// GOTO.
#[tactic(auto, using(crate::proofs::BranchRows::goto_line, crate::proofs::BranchRows::goto_is))]
pub fn goto_goal(unit: &[u8]) -> Goal
    requires phrase { is_phrase row.GOTO unit.now ≡ true }
    ensures goal { Ok result ≡ spec.goto_goal (tree_at row.GOTO unit.now) }
    ensures unit { IsUnit result }
{
    Goal::Line(line_at(rest_after(unit, 1)))
}

/// Past the next `:` after the k-th unit, as an ELSE that is reached done fast.
#[tactic(auto, using(crate::proofs::GoalUnits::past_unit))]
pub fn skipped_goal(line: &LentAtoms<'_>, k: usize) -> Goal
    ensures goal { result ≡ past_colon k (tree_units line.now) }
    ensures unit { IsUnit result }
{
    spells_a_line(line);
    past_colon(line, k)
}

/// Where a false IF leads that is the k-th unit.
#[tactic(auto, using(crate::proofs::GoalUnits::false_unit))]
pub fn false_goal(line: &LentAtoms<'_>, k: usize) -> Goal
    ensures goal { result ≡ after_false k (tree_units line.now) }
    ensures unit { IsUnit result }
{
    spells_a_line(line);
    after_false(line, k)
}

/// IF.
#[tactic(auto, using(crate::proofs::BranchRows::if_condition, crate::proofs::BranchRows::if_named, crate::proofs::BranchRows::if_is))]
pub fn if_goal(e: &Env<'_>, line: &LentAtoms<'_>, k: usize, unit: &[u8]) -> Result<Goal, Code>
    requires phrase { is_phrase row.IF unit.now ≡ true }
    requires few { k < 255 }
    ensures goal { result ≡ spec.if_goal (in_statement (surroundings e.now)) k (tree_units line.now) (tree_at row.IF unit.now) }
    ensures unit { IfOk result IsUnit }
{
    let mut c = Cursor::over(rest_after(unit, 1));
    match condition(&mut c, e) {
        Ok(true) => Ok(named_at(rest_after(c.rest(), 1), k)),
        Ok(false) => Ok(false_goal(line, k)),
        Err(code) => Err(code),
    }
}

/// DEFFN that is reached in order and declares no name: D87 where the name that it is to declare isn't one.
#[tactic(auto, using(crate::proofs::BranchRows::skipped_is))]
pub fn skipped_function(unit: &[u8]) -> Outcome
    requires phrase { is_phrase row.DEFFN unit.now ≡ true }
    ensures { result ≡ spec.skipped_function (tree_at row.DEFFN unit.now) }
{
    if is_at(GLOBAL_PART, rest_after(unit, 1)) {
        failed(D87_FILE_NAME)
    } else {
        Outcome::Next
    }
}
