// RESTORE, and CLEAR V and CLEAR N.
ghost use Rattle.std.specs.Prelude.{◌≡◌, true};
ghost use Rattle.b2_atom.specs.declared.rows.TheConstants as row;
ghost use Rattle.b2_rows.specs.Rows.{is_phrase, tree_at};
ghost use Rattle.b2_expr.specs.Workspace.{WorkState};
ghost use Rattle.b2_stmt_var.specs.Restoring as spec;

use b2_atom::words::LINE;
use b2_base::Code;
use b2_base::codes::P36_NO_LINE;
use b2_base::lexical::rest_after;
use b2_rows::{is_at, line_at};
use b2_text::{Spot, Text};
use b2_vars::Vars;

/// RESTORE: READ goes on at the first DATA, or at a line of the own text. The code with which it ended, or none.
pub fn restore(next: &mut Option<(Spot, u8)>, own: &Text, n: Option<u16>) -> Option<Code>
    ensures { (work : WorkState) → record { work = work; next = next.new; code = result } ≡ spec.restores n own.now.lines work next.old }
{
    let Some(n) = n else {
        *next = None;
        return None;
    };
    if own.line(n).is_none() {
        return Some(Code::known(P36_NO_LINE));
    }
    *next = Some((Spot { line: n, unit: 0 }, 0));
    None
}

/// The line that RESTORE names.
#[tactic(auto, using(crate::proofs::RestoreRows::restore_line, crate::proofs::RestoreRows::restore_with, crate::proofs::RestoreRows::restore_without))]
pub fn line_to_restore(unit: &[u8]) -> Option<u16>
    requires phrase { is_phrase row.RESTORE unit.now ≡ true }
    ensures { result ≡ spec.line_to_restore (tree_at row.RESTORE unit.now) }
{
    let line = rest_after(unit, 1);
    if is_at(LINE, line) {
        Some(line_at(rest_after(line, 1)))
    } else {
        None
    }
}

/// CLEAR V, which takes the common variables too, and CLEAR N.
pub fn clear(vars: &mut Vars, common: bool)
    ensures { vars.new ≡ spec.without_variables common vars.old }
{
    if common {
        vars.clear();
    } else {
        vars.clear_non_common();
    }
}
