// What the statement at a partition's place plans, and how it finishes.
ghost use Rattle.std.specs.Prelude.{◌≡◌, true, IfOk};
ghost use Rattle.b2_rows.specs.Rows.{is_phrase, tree_at};
ghost use Rattle.b2_access.specs.Answering.{can_answer};
ghost use Rattle.b2_access.specs.Lending.{globals_lent, seen_lent};
ghost use Rattle.b2_expr.specs.Workspace.{SameReferences, workspace};
ghost use Rattle.b2_stmt_mat.specs.Plan as spec;

use crate::byte_arrays::{copy_array, move_array, sort_array};
use crate::matrices::assign_matrix;
use crate::redimensioning::redimension;
use crate::searching::search_array;
use b2_access::{
    Access, Answer, DeviceTable, Lent, Outcome, Planned, Private, goes_or, setting_of,
    statement_placed,
};
use b2_atom::rows;
use b2_base::codes::S27_LEFT_OUT;
use b2_base::{Code, NoMemory};
use b2_expr::Workspace;
use std::alloc::Global;

/// Whether this crate builds a row.
pub fn is_built(row: u16) -> bool
    ensures { result ≡ spec.is_built row }
{
    matches!(
        row,
        rows::MAT
            | rows::MAT_REDIM
            | rows::MAT_SEARCH
            | rows::MAT_MOVE
            | rows::MAT_SORT
            | rows::MAT_COPY
    )
}

/// Executes the statement of a row over its workspace. The code with which it ended, or none.
fn change(
    alloc: Global,
    work: &mut Workspace<'_>,
    row: u16,
    unit: &[u8],
) -> Result<Option<Code>, NoMemory>
    requires phrase { is_phrase row unit.now ≡ true }
    ensures worked { IfOk result (λ code. record { work = workspace work.new; code = code } ≡ spec.changes row (tree_at row unit.now) (workspace work.old)) }
    ensures same_references { SameReferences work.old work.new }
{
    match row {
        rows::MAT => assign_matrix(alloc, work, unit),
        rows::MAT_REDIM => Ok(redimension(work, unit)),
        rows::MAT_SEARCH => search_array(work, unit),
        rows::MAT_MOVE => move_array(alloc, work, unit),
        rows::MAT_SORT => sort_array(alloc, work, unit),
        rows::MAT_COPY => copy_array(alloc, work, unit),
        _ => Ok(Some(Code::known(S27_LEFT_OUT))),
    }
}

/// What the statement at the place of a partition plans. Where no unit is there it is ready.
pub fn plan(
    alloc: Global,
    me: &mut Private,
    lent: &mut Lent<'_>,
    devices: &DeviceTable,
) -> Result<Planned, NoMemory>
    ensures planned { IfOk result (λ p. record { me = me.new; globals = globals_lent lent.new; planned = p } ≡ spec.plan me.old (seen_lent lent.old)) }
    ensures same_texts { (lent.new.own ≡ lent.old.own) × (lent.new.home ≡ lent.old.home) }
    ensures same_reference { lent.new.globals.ghost_name ≡ lent.old.globals.ghost_name }
    ensures part { me.new.part ≡ me.old.part }
{
    let Some(place) = me.place else {
        return Ok(Planned::Done(Outcome::Ready));
    };
    let setting = setting_of(me);
    let home = lent.home;
    let Some(unit) = statement_placed(place, &me.immediate, home) else {
        return Ok(Planned::Done(Outcome::Ready));
    };
    let mut work = Workspace {
        own: &mut me.vars,
        globals: lent.globals,
        found: lent.found,
        reached: lent.reached,
        setting,
        home,
    };
    let code = change(alloc, &mut work, unit.row, unit.bytes)?;
    lent.reached = work.reached;
    Ok(Planned::Done(goes_or(Outcome::Next, code)))
}

/// How a statement finishes: none asks for an access.
pub fn finish(
    alloc: Global,
    me: &mut Private,
    lent: &mut Lent<'_>,
    access: &Access,
    answer: &Answer,
) -> Result<Outcome, NoMemory>
    requires possible { can_answer access.now answer.now ≡ true }
    ensures finished { IfOk result (λ o. record { me = me.new; globals = globals_lent lent.new; outcome = o } ≡ spec.finish access.now answer.now me.old (seen_lent lent.old)) }
    ensures same_reference { lent.new.globals.ghost_name ≡ lent.old.globals.ghost_name }
    ensures part { me.new.part ≡ me.old.part }
{
    Ok(Outcome::Repeat)
}
