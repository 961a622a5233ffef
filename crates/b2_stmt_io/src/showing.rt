// What PRINT and PRINTUSING ask for.
ghost use Rattle.std.specs.Prelude.{◌≡◌, true, IfOk};
ghost use Rattle.b2_atom.specs.declared.rows.TheConstants as row;
ghost use Rattle.b2_rows.specs.Rows.{is_phrase, tree_at};
ghost use Rattle.b2_expr.specs.Scope.{surroundings};
ghost use Rattle.b2_expr.specs.Value.{in_statement};
ghost use Rattle.b2_stmt_io.specs.Showing as spec;

use crate::imaging::shown_using;
use crate::outlets::Outlet;
use crate::printing::show_items;
use b2_access::{Planned, failing};
use b2_base::{ByteList, NoMemory};
use b2_expr::Env;
use std::alloc::Global;

/// For how many bytes there is room at once in what PRINT shows, as most statements show fewer.
const LINE: usize = 64;

/// What PRINT asks for: its items are evaluated, and then they are shown.
#[tactic(auto, using(crate::proofs::Refusals::layout_refused))]
pub fn ask_print(
    alloc: Global,
    e: &Env<'_>,
    outlet: &Outlet,
    unit: &[u8],
) -> Result<Planned, NoMemory>
    requires phrase { is_phrase row.PRINT unit.now ≡ true }
    ensures { IfOk result (λ p. p ≡ spec.asks_to_print (tree_at row.PRINT unit.now) (in_statement (surroundings e.now)) outlet.now) }
{
    let mut out = Vec::with_capacity(alloc, LINE)?;
    match show_items(alloc, e, outlet, unit, &mut out) {
        Ok(after) => Ok(Planned::Ask(outlet.show_to(ByteList::new(out), after))),
        Err(fault) => Ok(Planned::Done(failing(fault)?)),
    }
}

/// What PRINTUSING asks for: its items are evaluated, and then they are shown.
#[tactic(auto, using(crate::proofs::Refusals::bytes_refused))]
pub fn ask_using(
    alloc: Global,
    e: &Env<'_>,
    outlet: &Outlet,
    unit: &[u8],
) -> Result<Planned, NoMemory>
    requires phrase { is_phrase row.PRINTUSING unit.now ≡ true }
    ensures { IfOk result (λ p. p ≡ spec.asks_to_print_using (tree_at row.PRINTUSING unit.now) (in_statement (surroundings e.now)) outlet.now) }
{
    match shown_using(alloc, e, unit) {
        Ok(bytes) => Ok(Planned::Ask(outlet.show_from(bytes))),
        Err(fault) => Ok(Planned::Done(failing(fault)?)),
    }
}
