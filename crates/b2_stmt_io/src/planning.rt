// What the statement at a partition's place plans, and how it finishes.
ghost use Rattle.std.specs.Prelude.{◌≡◌, true, IfOk};
ghost use Rattle.b2_access.specs.Answering.{can_answer};
ghost use Rattle.b2_rows.specs.Laws.{IsRow};
ghost use Rattle.b2_rows.specs.Rows.{tree_at};
ghost use Rattle.b2_access.specs.Lending.{SeenLent, globals_lent, seen_lent};
ghost use Rattle.b2_expr.specs.Scope.{surroundings};
ghost use Rattle.b2_expr.specs.Value.{in_statement};
ghost use Rattle.b2_access.specs.Working.{plans_by};
ghost use Rattle.b2_stmt_io.specs.Plan as spec;

use crate::converting::convert_unit;
use crate::handing::after_release;
use crate::inputs::{ask_input, line_entered, take_typed, without_line};
use crate::keys::{after_key, assign_key, key_byte};
use crate::line_reading::ask_linput;
use crate::outlets::{Outlet, outlet_of};
use crate::showing::{ask_print, ask_using};
use b2_access::{
    Access, Answer, DeviceTable, Lent, Outcome, Planned, Private, after_show_or_print, failed,
    goes_or, setting_of, statement_placed,
};
use b2_atom::rows;
use b2_base::codes::{S26_PROGRAM_ONLY, S27_LEFT_OUT};
use b2_base::{Code, NoMemory};
use b2_expr::{Env, Workspace, surroundings_of};
use b2_rows::RowUnit;
use std::alloc::Global;

/// Whether this crate builds a row.
pub fn is_built(row: u16) -> bool
    ensures { result ≡ spec.is_built row }
{
    matches!(
        row,
        rows::PRINT
            | rows::PRINTUSING
            | rows::KEYIN
            | rows::LINPUT
            | rows::INPUT
            | rows::RELEASE
            | rows::CONVERT
    )
}

/// Whether a statement may not stand in a line of the program, or in an immediate line.
fn is_refused(row: u16, program: bool) -> bool
    ensures { result ≡ spec.is_refused row program }
{
    (row == rows::INPUT || row == rows::LINPUT || row == rows::KEYIN) && !program
}

/// What a statement asks for that changes nothing yet: by where PRINT and PRINTUSING show or its code, and by the column at the
/// terminal and whether the prompt was shown there.
fn ask_at_terminal(
    alloc: Global,
    e: &Env<'_>,
    outlet: Result<Outlet, Code>,
    column: u16,
    prompted: bool,
    unit: &RowUnit<'_>,
) -> Result<Planned, NoMemory>
    requires read { IsRow unit.now.row unit.now.bytes.now (tree_at unit.now.row unit.now.bytes.now) }
    ensures { IfOk result (λ p. p ≡ spec.asked_of unit.now.row (tree_at unit.now.row unit.now.bytes.now) (in_statement (surroundings e.now)) outlet column prompted) }
{
    let term = e.term;
    match unit.row {
        rows::PRINT => match outlet {
            Ok(at) => ask_print(alloc, e, &at, unit.bytes),
            Err(code) => Ok(Planned::Done(Outcome::Failed(code))),
        },
        rows::PRINTUSING => match outlet {
            Ok(at) => ask_using(alloc, e, &at, unit.bytes),
            Err(code) => Ok(Planned::Done(Outcome::Failed(code))),
        },
        rows::KEYIN => Ok(Planned::Ask(Access::Key { term })),
        rows::LINPUT => Ok(Planned::Ask(ask_linput(alloc, prompted, column, term, unit.bytes)?)),
        rows::INPUT => Ok(Planned::Ask(ask_input(alloc, prompted, column, term, unit.bytes)?)),
        rows::RELEASE => Ok(Planned::Ask(Access::Release { term })),
        _ => Ok(Planned::Done(failed(S27_LEFT_OUT))),
    }
}

/// What the statement of a unit plans that was found in a line of the program, over the devices that there are.
pub fn plan_found(
    alloc: Global,
    me: &mut Private,
    lent: &mut Lent<'_>,
    devices: &DeviceTable,
    unit: &RowUnit<'_>,
) -> Result<Planned, NoMemory>
    requires read { IsRow unit.now.row unit.now.bytes.now (tree_at unit.now.row unit.now.bytes.now) }
    ensures planned { IfOk result (λ p. record { me = me.new; globals = globals_lent lent.new; planned = p } ≡ plans_by (spec.dispatch_of devices.now (record { row = unit.now.row; tree = tree_at unit.now.row unit.now.bytes.now })) me.old (seen_lent lent.old)) }
    ensures same_texts { (lent.new.own ≡ lent.old.own) × (lent.new.home ≡ lent.old.home) }
    ensures same_reference { lent.new.globals.ghost_name ≡ lent.old.globals.ghost_name }
    ensures part { me.new.part ≡ me.old.part }
{
    let outlet = outlet_of(devices, me);
    let setting = setting_of(me);
    let mut work = Workspace {
        own: &mut me.vars,
        globals: lent.globals,
        found: lent.found,
        reached: lent.reached,
        setting,
        home: lent.home,
    };
    if unit.row == rows::CONVERT {
        let code = convert_unit(&mut work, unit.bytes)?;
        lent.reached = work.reached;
        return Ok(Planned::Done(goes_or(Outcome::Next, code)));
    }
    let e = surroundings_of(&work);
    ask_at_terminal(alloc, &e, outlet, me.term_column, me.prompted, unit)
}

/// What the statement at the place of a partition plans, over the devices that there are. Where no unit is there it is ready.
pub fn plan(
    alloc: Global,
    me: &mut Private,
    lent: &mut Lent<'_>,
    devices: &DeviceTable,
) -> Result<Planned, NoMemory>
    ensures planned { IfOk result (λ p. record { me = me.new; globals = globals_lent lent.new; planned = p } ≡ spec.plan devices.now me.old (seen_lent lent.old)) }
    ensures same_texts { (lent.new.own ≡ lent.old.own) × (lent.new.home ≡ lent.old.home) }
    ensures same_reference { lent.new.globals.ghost_name ≡ lent.old.globals.ghost_name }
    ensures part { me.new.part ≡ me.old.part }
{
    let Some(place) = me.place else {
        return Ok(Planned::Done(Outcome::Ready));
    };
    let outlet = outlet_of(devices, me);
    let setting = setting_of(me);
    let home = lent.home;
    let Some(unit) = statement_placed(place, &me.immediate, home) else {
        return Ok(Planned::Done(Outcome::Ready));
    };
    if is_refused(unit.row, place.line.is_some()) {
        return Ok(Planned::Done(failed(S26_PROGRAM_ONLY)));
    }
    let mut work = Workspace {
        own: &mut me.vars,
        globals: lent.globals,
        found: lent.found,
        reached: lent.reached,
        setting,
        home,
    };
    if unit.row == rows::CONVERT {
        let code = convert_unit(&mut work, unit.bytes)?;
        lent.reached = work.reached;
        return Ok(Planned::Done(goes_or(Outcome::Next, code)));
    }
    let e = surroundings_of(&work);
    ask_at_terminal(alloc, &e, outlet, me.term_column, me.prompted, &unit)
}

/// Whether statements of a row finish by what they asked for and its answer alone: PRINT and PRINTUSING.
pub fn is_printing(row: u16) -> bool
    ensures { result ≡ spec.is_printing row }
{
    row == rows::PRINT || row == rows::PRINTUSING
}

/// How a statement finishes of such a row, by the access that it asked for and its answer, which is one that the access can have.
#[tactic(auto, using(crate::proofs::Entered::shown_is))]
pub fn finish_printing(me: &mut Private, access: &Access, answer: &Answer) -> Outcome
    requires possible { can_answer access.now answer.now ≡ true }
    ensures finished { (s : SeenLent) → record { me = me.new; globals = s.globals; outcome = result } ≡ spec.finish_printing access.now answer.now me.old s }
    ensures part { me.new.part ≡ me.old.part }
{
    after_show_or_print(me, access, answer)
}

/// How the statement at the place of a partition finishes, by the access that it asked for and its answer, which is one that the
/// access can have.
#[tactic(auto, using(crate::proofs::Entered::unread_is, crate::proofs::Entered::shown_is))]
pub fn finish(
    alloc: Global,
    me: &mut Private,
    lent: &mut Lent<'_>,
    access: &Access,
    answer: &Answer,
) -> Result<Outcome, NoMemory>
    requires possible { can_answer access.now answer.now ≡ true }
    ensures finished { IfOk result (λ o. record { me = me.new; globals = globals_lent lent.new; outcome = o } ≡ spec.finish access.now answer.now me.old (seen_lent lent.old)) }
    ensures same_reference { lent.new.globals.ghost_name ≡ lent.old.globals.ghost_name }
    ensures part { me.new.part ≡ me.old.part }
{
    let Some(place) = me.place else {
        return Ok(Outcome::Repeat);
    };
    let setting = setting_of(me);
    let home = lent.home;
    let Some(unit) = statement_placed(place, &me.immediate, home) else {
        return Ok(Outcome::Repeat);
    };
    if is_refused(unit.row, place.line.is_some()) {
        return Ok(Outcome::Repeat);
    }
    match unit.row {
        rows::PRINT => Ok(after_show_or_print(me, access, answer)),
        rows::PRINTUSING => Ok(after_show_or_print(me, access, answer)),
        rows::KEYIN => {
            let goes = after_key(home, place, access, answer, unit.bytes);
            let Some(key) = key_byte(access, answer) else {
                return Ok(goes);
            };
            let mut work = Workspace {
                own: &mut me.vars,
                globals: lent.globals,
                found: lent.found,
                reached: lent.reached,
                setting,
                home,
            };
            let code = assign_key(&mut work, key, unit.bytes)?;
            lent.reached = work.reached;
            Ok(goes_or(goes, code))
        }
        rows::LINPUT | rows::INPUT => {
            let Some(line) = line_entered(access, answer) else {
                return without_line(alloc, me, lent.own, access, answer);
            };
            let mut work = Workspace {
                own: &mut me.vars,
                globals: lent.globals,
                found: lent.found,
                reached: lent.reached,
                setting,
                home,
            };
            let code = take_typed(&mut work, unit.row, line, unit.bytes)?;
            lent.reached = work.reached;
            me.term_column = 0;
            Ok(goes_or(Outcome::Next, code))
        }
        rows::RELEASE => Ok(after_release(access, answer)),
        _ => Ok(Outcome::Repeat),
    }
}
