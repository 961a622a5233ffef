// $BREAK.
ghost use Rattle.std.specs.Prelude.{◌≡◌, true};
ghost use Rattle.b2_atom.specs.declared.rows.TheConstants as row;
ghost use Rattle.b2_rows.specs.Rows.{is_phrase, tree_at};
ghost use Rattle.b2_access.specs.Steering.{steered};
ghost use Rattle.b2_expr.specs.Scope.{surroundings};
ghost use Rattle.b2_expr.specs.Value.{in_statement};
ghost use Rattle.b2_stmt.specs.Breaks as spec;

use b2_access::{Outcome, Private};
use b2_atom::Cursor;
use b2_base::Code;
use b2_base::lexical::rest_after;
use b2_expr::{Env, number, whole_between};
use b2_rows::is_numeric_at;

/// How many turns are passed: the number that is written, which must be from 0 to 255 without its fraction, or 0.
#[tactic(auto, using(crate::proofs::BreakRows::break_sum, crate::proofs::BreakRows::break_with, crate::proofs::BreakRows::break_without))]
pub fn turns_to_pass(e: &Env<'_>, unit: &[u8]) -> Result<u8, Code>
    requires phrase { is_phrase row.BREAK unit.now ≡ true }
    ensures { result ≡ spec.turns_to_pass (in_statement (surroundings e.now)) (tree_at row.BREAK unit.now) }
{
    let text = rest_after(unit, 1);
    if !is_numeric_at(text) {
        return Ok(0);
    }
    let mut c = Cursor::over(text);
    match number(&mut c, e) {
        Ok(x) => whole_between(0, 255, x),
        Err(code) => Err(code),
    }
}

/// Ends the turn, and passes so many of the next.
pub fn pass_turns(me: &mut Private, turns: u8) -> Outcome
    ensures ended { record { me = me.new; outcome = result } ≡ steered me.old (spec.breaks turns me.old) }
    ensures part { me.new.part ≡ me.old.part }
{
    me.pass = turns;
    Outcome::Break
}
