// What the statement at a partition's place plans, and how it finishes.
ghost use Rattle.std.specs.Prelude.{◌≡◌, true, IfOk};
ghost use Rattle.b2_rows.specs.Rows.{is_phrase, tree_at};
ghost use Rattle.b2_access.specs.Answering.{can_answer};
ghost use Rattle.b2_access.specs.Found.{HasRow, seen_found, statement_found};
ghost use Rattle.b2_access.specs.Lending.{globals_lent, seen_lent};
ghost use Rattle.b2_access.specs.Working.{Ends, as_planned};
ghost use Rattle.b2_expr.specs.Workspace.{SameReferences, workspace};
ghost use Rattle.b2_stmt_var.specs.Plan as spec;

use crate::assignments::assign;
use crate::buffers::{init, rotate_bits};
use crate::dimensions::dim;
use crate::reading::read;
use crate::restoring::{clear, line_to_restore, restore};
use b2_access::{
    Access, Answer, DeviceTable, Found, Lent, Outcome, Planned, Private, goes_or, setting_of,
    statement_placed,
};
use b2_atom::rows;
use b2_base::codes::S27_LEFT_OUT;
use b2_base::{Code, NoMemory};
use b2_expr::Workspace;
use b2_text::{Spot, Text};
use std::alloc::Global;

/// Whether this crate builds a row.
pub fn is_built(row: u16) -> bool
    ensures { result ≡ spec.is_built row }
{
    matches!(
        row,
        rows::ASSIGNMENT
            | rows::DIM
            | rows::INIT
            | rows::ROTATE
            | rows::READ
            | rows::RESTORE
            | rows::CLEAR_V
            | rows::CLEAR_N
    )
}

/// Executes the statement of a row over its workspace and the place where READ goes on. The code with which it ended, or none.
fn change(
    alloc: Global,
    work: &mut Workspace<'_>,
    next: &mut Option<(Spot, u8)>,
    own: &Text,
    row: u16,
    unit: &[u8],
) -> Result<Option<Code>, NoMemory>
    requires phrase { is_phrase row unit.now ≡ true }
    ensures worked { IfOk result (λ code. record { work = workspace work.new; next = next.new; code = code } ≡ spec.changes row own.now.lines (tree_at row unit.now) (workspace work.old) next.old) }
    ensures same_references { SameReferences work.old work.new }
{
    match row {
        rows::ASSIGNMENT => assign(alloc, work, unit),
        rows::DIM => dim(work, unit),
        rows::INIT => init(work, unit),
        rows::ROTATE => rotate_bits(work, unit),
        rows::READ => read(work, next, own, unit),
        rows::RESTORE => Ok(restore(next, own, line_to_restore(unit))),
        rows::CLEAR_V => {
            clear(work.own, true);
            Ok(None)
        }
        rows::CLEAR_N => {
            clear(work.own, false);
            Ok(None)
        }
        _ => Ok(Some(Code::known(S27_LEFT_OUT))),
    }
}

/// Executes a statement that its caller has found.
pub fn execute(
    alloc: Global,
    me: &mut Private,
    lent: &mut Lent<'_>,
    found: &Found<'_>,
) -> Result<Outcome, NoMemory>
    requires row { HasRow found.now }
    ensures ended { IfOk result (λ o. record { me = me.new; globals = globals_lent lent.new; planned = Planned.Done o } ≡ as_planned me.old (seen_found found.now (globals_lent lent.old)) (Ends (spec.ended_of (statement_found found.now) me.old (seen_found found.now (globals_lent lent.old))))) }
    ensures same_texts { (lent.new.own ≡ lent.old.own) × (lent.new.home ≡ lent.old.home) }
    ensures same_reference { lent.new.globals.ghost_name ≡ lent.old.globals.ghost_name }
    ensures part { me.new.part ≡ me.old.part }
{
    let home = found.home;
    let setting = setting_of(me);
    let mut work = Workspace {
        own: &mut me.vars,
        globals: lent.globals,
        found: lent.found,
        reached: lent.reached,
        setting,
        home,
    };
    let code = change(
        alloc,
        &mut work,
        &mut me.next_data,
        found.own,
        found.unit.row,
        found.unit.bytes,
    )?;
    lent.reached = work.reached;
    Ok(goes_or(Outcome::Next, code))
}

/// What a statement plans that its caller has found, over what is lent.
pub fn plan_found(
    alloc: Global,
    me: &mut Private,
    lent: &mut Lent<'_>,
    found: &Found<'_>,
) -> Result<Planned, NoMemory>
    requires row { HasRow found.now }
    ensures planned { IfOk result (λ p. record { me = me.new; globals = globals_lent lent.new; planned = p } ≡ as_planned me.old (seen_lent lent.old) (Ends (spec.ended_of (statement_found found.now) me.old (seen_lent lent.old)))) }
    ensures same_texts { (lent.new.own ≡ lent.old.own) × (lent.new.home ≡ lent.old.home) }
    ensures same_reference { lent.new.globals.ghost_name ≡ lent.old.globals.ghost_name }
    ensures part { me.new.part ≡ me.old.part }
{
    let here = Found {
        own: lent.own,
        home: lent.home,
        line: found.line,
        unit: found.unit,
        place: found.place,
    };
    let outcome = execute(alloc, me, lent, &here)?;
    Ok(Planned::Done(outcome))
}

/// What the statement at the place of a partition plans. Where no unit is there it is ready.
pub fn plan(
    alloc: Global,
    me: &mut Private,
    lent: &mut Lent<'_>,
    devices: &DeviceTable,
) -> Result<Planned, NoMemory>
    ensures planned { IfOk result (λ p. record { me = me.new; globals = globals_lent lent.new; planned = p } ≡ spec.plan me.old (seen_lent lent.old)) }
    ensures same_texts { (lent.new.own ≡ lent.old.own) × (lent.new.home ≡ lent.old.home) }
    ensures same_reference { lent.new.globals.ghost_name ≡ lent.old.globals.ghost_name }
    ensures part { me.new.part ≡ me.old.part }
{
    let Some(place) = me.place else {
        return Ok(Planned::Done(Outcome::Ready));
    };
    let setting = setting_of(me);
    let home = lent.home;
    let Some(unit) = statement_placed(place, &me.immediate, home) else {
        return Ok(Planned::Done(Outcome::Ready));
    };
    let mut work = Workspace {
        own: &mut me.vars,
        globals: lent.globals,
        found: lent.found,
        reached: lent.reached,
        setting,
        home,
    };
    let code = change(
        alloc,
        &mut work,
        &mut me.next_data,
        lent.own,
        unit.row,
        unit.bytes,
    )?;
    lent.reached = work.reached;
    Ok(Planned::Done(goes_or(Outcome::Next, code)))
}

/// How a statement finishes: none asks for an access.
pub fn finish(
    alloc: Global,
    me: &mut Private,
    lent: &mut Lent<'_>,
    access: &Access,
    answer: &Answer,
) -> Result<Outcome, NoMemory>
    requires possible { can_answer access.now answer.now ≡ true }
    ensures finished { IfOk result (λ o. record { me = me.new; globals = globals_lent lent.new; outcome = o } ≡ spec.finish access.now answer.now me.old (seen_lent lent.old)) }
    ensures same_globals { lent.new.globals.now ≡ lent.old.globals.now }
    ensures same_reference { lent.new.globals.ghost_name ≡ lent.old.globals.ghost_name }
    ensures part { me.new.part ≡ me.old.part }
{
    Ok(Outcome::Repeat)
}
