// What the statement at a partition's place plans.
ghost use Rattle.std.specs.Prelude.{◌≡◌, false, IfOk, None, Some};
ghost use Rattle.std.specs.Option.{option_map_or};
ghost use Rattle.b2_rows.specs.Following.{tree_units};
ghost use Rattle.b2_access.specs.Dispatch.{dispatch_at, permitted};
ghost use Rattle.b2_access.specs.Found.{IsRead, here_found, seen_found, statement_found};
ghost use Rattle.b2_access.specs.Lending.{globals_lent, seen_lent};
ghost use Rattle.b2_access.specs.Placed.{statement_on as named_on};
ghost use Rattle.b2_stmt.specs.Asked.{HasLegalNames, is_still, still as still_of};
ghost use Rattle.b2_stmt.specs.Clearing.{asks_access};
ghost use Rattle.b2_stmt.specs.Plan as spec;
ghost use Rattle.b2_stmt.specs.Plan.{around};

use crate::asked::{Asked, ask, still};
use crate::borrowing::{do_or_ask, go_back_or_leave};
use crate::clearing::asked_access;
use crate::marked::take_args;
use b2_access::{
    Access, DeviceTable, Found, Lent, Outcome, Planned, Private, failed, setting_of, statement_on,
};
use b2_atom::{Atoms, LentAtoms, rows};
use b2_base::NoMemory;
use b2_base::codes::S26_PROGRAM_ONLY;
use b2_expr::Workspace;
use b2_flow::Place;
use b2_text::Text;
use std::alloc::Global;

/// Whether the statement of a row changes nothing and asks the private state for nothing.
fn is_still(row: u16) -> bool
    ensures { result ≡ is_still row }
{
    matches!(
        row,
        rows::IF
            | rows::GOTO
            | rows::ELSE
            | rows::ERROR
            | rows::END
            | rows::REMARK
            | rows::IMAGE_LINE
            | rows::DATA
            | rows::DEFFN
            | rows::SELECT_PART
    )
}

/// Whether this crate builds a row.
pub fn is_built(row: u16) -> bool
    ensures { result ≡ spec.is_built row }
{
    is_still(row)
        || matches!(
            row,
            rows::FOR
                | rows::NEXT
                | rows::GOSUB
                | rows::GOSUB_MARKED
                | rows::RETURN
                | rows::RETURN_CLEAR
                | rows::ON
                | rows::STOP
                | rows::RUN
                | rows::CONTINUE
                | rows::SELECT
                | rows::SELECT_NO_ROUND
                | rows::BREAK
                | rows::DEFFN_MARKED
                | rows::CLEAR
                | rows::CLEAR_P
        )
}

/// Whether a statement is for programs alone.
fn is_for_programs(row: u16) -> bool
    ensures { result ≡ spec.is_for_programs row }
{
    row == rows::GOSUB
        || row == rows::GOSUB_MARKED
        || row == rows::RETURN
        || row == rows::RETURN_CLEAR
        || row == rows::DATA
        || row == rows::DEFFN
        || row == rows::DEFFN_MARKED
}

/// Whether a statement may not stand in a line of the program, or in an immediate line.
pub fn is_refused(row: u16, program: bool) -> bool
    ensures { result ≡ spec.is_refused row program }
{
    if program {
        row == rows::RUN || row == rows::CONTINUE
    } else {
        is_for_programs(row)
    }
}

/// What a statement asks of the private state that was found on a line.
pub fn asked_found(
    alloc: Global,
    me: &mut Private,
    lent: &mut Lent<'_>,
    found: &Found<'_>,
) -> Result<Asked, NoMemory>
    requires read { IsRead found.now }
    ensures asked { IfOk result (λ asked. asked ≡ spec.asked_by (statement_found found.now) (here_found found.now) me.old (seen_found found.now (globals_lent lent.old))) }
    ensures named { IfOk result HasLegalNames }
    ensures me { me.new ≡ me.old }
    ensures same { globals_lent lent.new ≡ globals_lent lent.old }
    ensures same_texts { (lent.new.own ≡ lent.old.own) × (lent.new.home ≡ lent.old.home) }
    ensures same_reference { lent.new.globals.ghost_name ≡ lent.old.globals.ghost_name }
{
    let setting = setting_of(me);
    let work = Workspace {
        own: &mut me.vars,
        globals: lent.globals,
        found: lent.found,
        reached: lent.reached,
        setting,
        home: found.home,
    };
    ask(alloc, &work, found.line, &found.place, found.unit)
}

/// Executes a statement that asks the private state for something. Where it asks for the text of another, nothing is done, and the access
/// goes to the caller.
fn execute_asked(
    alloc: Global,
    me: &mut Private,
    lent: &mut Lent<'_>,
    found: &Found<'_>,
    access: &mut Option<Access>,
) -> Result<Outcome, NoMemory>
    requires read { IsRead found.now }
    requires empty { access.old ≡ None }
    ensures ended { IfOk result (λ o. record { me = me.new; globals = globals_lent lent.new; planned = option_map_or Planned.Ask access.new (Planned.Done o) } ≡ spec.plans_asked (spec.asked_by (statement_found found.now) (here_found found.now) me.old (seen_found found.now (globals_lent lent.old))) found.now.place me.old (seen_found found.now (globals_lent lent.old))) }
    ensures same_texts { (lent.new.own ≡ lent.old.own) × (lent.new.home ≡ lent.old.home) }
    ensures same_reference { lent.new.globals.ghost_name ≡ lent.old.globals.ghost_name }
    ensures part { me.new.part ≡ me.old.part }
{
    let asked = asked_found(alloc, me, lent, found)?;
    do_or_ask(me, found.own, found.home, found.place, asked, access)
}

/// How a statement ends that changes nothing.
fn execute_still(me: &mut Private, lent: &mut Lent<'_>, found: &Found<'_>) -> Outcome
    requires read { IsRead found.now }
    ensures ended { result ≡ still_of found.now.unit.now.row (statement_found found.now).tree (here_found found.now) (around me.old (seen_found found.now (globals_lent lent.old))) found.now.home.now.lines }
    ensures me { me.new ≡ me.old }
    ensures same { globals_lent lent.new ≡ globals_lent lent.old }
    ensures same_texts { (lent.new.own ≡ lent.old.own) × (lent.new.home ≡ lent.old.home) }
    ensures same_reference { lent.new.globals.ghost_name ≡ lent.old.globals.ghost_name }
{
    let setting = setting_of(me);
    let work = Workspace {
        own: &mut me.vars,
        globals: lent.globals,
        found: lent.found,
        reached: lent.reached,
        setting,
        home: found.home,
    };
    still(
        &work,
        found.line,
        found.place,
        found.unit.row,
        found.unit.bytes,
    )
}

/// Executes a statement that may stand where it does, and asks for no access by its row. Where it asks for the text of another, nothing is
/// done, and the access goes to the caller.
#[tactic(auto, using(crate::proofs::Executed::still_there, crate::proofs::Executed::taken_there, crate::proofs::Executed::asked_there, crate::proofs::Executed::returned_there))]
fn execute_allowed(
    alloc: Global,
    me: &mut Private,
    lent: &mut Lent<'_>,
    found: &Found<'_>,
    access: &mut Option<Access>,
) -> Result<Outcome, NoMemory>
    requires read { IsRead found.now }
    requires empty { access.old ≡ None }
    ensures ended { IfOk result (λ o. record { me = me.new; globals = globals_lent lent.new; planned = option_map_or Planned.Ask access.new (Planned.Done o) } ≡ spec.acts (statement_found found.now) (here_found found.now) me.old (seen_found found.now (globals_lent lent.old))) }
    ensures same_texts { (lent.new.own ≡ lent.old.own) × (lent.new.home ≡ lent.old.home) }
    ensures same_reference { lent.new.globals.ghost_name ≡ lent.old.globals.ghost_name }
    ensures part { me.new.part ≡ me.old.part }
{
    let row = found.unit.row;
    if is_still(row) {
        return Ok(execute_still(me, lent, found));
    }
    if row == rows::DEFFN_MARKED {
        return take_args(me, lent, found);
    }
    if row == rows::RETURN {
        return Ok(go_back_or_leave(me, access));
    }
    execute_asked(alloc, me, lent, found, access)
}

/// Executes a statement that its caller has found, where it asks for no access by its row. Where it asks for the text of another, nothing
/// is done, the access goes to the caller, and the outcome says nothing.
#[tactic(auto, using(b2_access::proofs::Dispatch::may_not_stand, crate::proofs::Executed::quiet_there))]
pub fn execute(
    alloc: Global,
    me: &mut Private,
    lent: &mut Lent<'_>,
    found: &Found<'_>,
    access: &mut Option<Access>,
) -> Result<Outcome, NoMemory>
    requires quiet { asks_access found.now.unit.now.row ≡ false }
    requires read { IsRead found.now }
    requires empty { access.old ≡ None }
    ensures ended { IfOk result (λ o. record { me = me.new; globals = globals_lent lent.new; planned = option_map_or Planned.Ask access.new (Planned.Done o) } ≡ permitted spec.is_refused (spec.stops me.old (seen_found found.now (globals_lent lent.old))) (spec.does me.old (seen_found found.now (globals_lent lent.old))) (statement_found found.now) (here_found found.now)) }
    ensures same_texts { (lent.new.own ≡ lent.old.own) × (lent.new.home ≡ lent.old.home) }
    ensures same_reference { lent.new.globals.ghost_name ≡ lent.old.globals.ghost_name }
    ensures part { me.new.part ≡ me.old.part }
{
    if is_refused(found.unit.row, found.place.line.is_some()) {
        return Ok(failed(S26_PROGRAM_ONLY));
    }
    execute_allowed(alloc, me, lent, found, access)
}

/// What was planned: the access that it asks for, or how it has ended.
fn planned_of(outcome: Outcome, access: Option<Access>) -> Planned
    ensures { result ≡ option_map_or Planned.Ask access (Planned.Done outcome) }
{
    match access {
        Some(access) => Planned::Ask(access),
        None => Planned::Done(outcome),
    }
}

/// What a statement plans that was found on a line.
#[tactic(auto, using(b2_access::proofs::Dispatch::may_not_stand, crate::proofs::Executed::access_planned, crate::proofs::Executed::none_planned))]
fn plan_unit(
    alloc: Global,
    me: &mut Private,
    lent: &mut Lent<'_>,
    found: &Found<'_>,
) -> Result<Planned, NoMemory>
    requires read { IsRead found.now }
    ensures planned { IfOk result (λ p. record { me = me.new; globals = globals_lent lent.new; planned = p } ≡ permitted spec.is_refused (spec.stops me.old (seen_found found.now (globals_lent lent.old))) (spec.does me.old (seen_found found.now (globals_lent lent.old))) (statement_found found.now) (here_found found.now)) }
    ensures same_texts { (lent.new.own ≡ lent.old.own) × (lent.new.home ≡ lent.old.home) }
    ensures same_reference { lent.new.globals.ghost_name ≡ lent.old.globals.ghost_name }
    ensures part { me.new.part ≡ me.old.part }
{
    if is_refused(found.unit.row, found.place.line.is_some()) {
        return Ok(Planned::Done(failed(S26_PROGRAM_ONLY)));
    }
    if let Some(access) = asked_access(found.unit.row, found.unit.bytes, me) {
        return Ok(Planned::Ask(access));
    }
    let mut access = None;
    let outcome = execute_allowed(alloc, me, lent, found, &mut access)?;
    Ok(planned_of(outcome, access))
}

/// What a statement plans that its caller has found, over what is lent.
pub fn plan_found(
    alloc: Global,
    me: &mut Private,
    lent: &mut Lent<'_>,
    found: &Found<'_>,
) -> Result<Planned, NoMemory>
    requires read { IsRead found.now }
    ensures planned { IfOk result (λ p. record { me = me.new; globals = globals_lent lent.new; planned = p } ≡ permitted spec.is_refused (spec.stops me.old (seen_lent lent.old)) (spec.does me.old (seen_lent lent.old)) (statement_found found.now) (here_found found.now)) }
    ensures same_texts { (lent.new.own ≡ lent.old.own) × (lent.new.home ≡ lent.old.home) }
    ensures same_reference { lent.new.globals.ghost_name ≡ lent.old.globals.ghost_name }
    ensures part { me.new.part ≡ me.old.part }
{
    let here = Found {
        own: lent.own,
        home: lent.home,
        line: found.line,
        unit: found.unit,
        place: found.place,
    };
    plan_unit(alloc, me, lent, &here)
}

/// What the unit at a place on a line plans.
fn plan_on(
    alloc: Global,
    me: &mut Private,
    lent: &mut Lent<'_>,
    line: &LentAtoms<'_>,
    place: Place,
) -> Result<Planned, NoMemory>
    ensures planned { IfOk result (λ p. record { me = me.new; globals = globals_lent lent.new; planned = p } ≡ dispatch_at spec.is_refused (spec.stops me.old (seen_lent lent.old)) (spec.does me.old (seen_lent lent.old)) (named_on (Some line.now) place.unit) (record { place = place; units = tree_units line.now })) }
    ensures same_texts { (lent.new.own ≡ lent.old.own) × (lent.new.home ≡ lent.old.home) }
    ensures same_reference { lent.new.globals.ghost_name ≡ lent.old.globals.ghost_name }
    ensures part { me.new.part ≡ me.old.part }
{
    match statement_on(line, usize::from(place.unit)) {
        Some(unit) => {
            let found = Found {
                own: lent.own,
                home: lent.home,
                line,
                unit: &unit,
                place,
            };
            plan_unit(alloc, me, lent, &found)
        }
        None => Ok(Planned::Done(Outcome::Ready)),
    }
}

/// A copy of the immediate line: it lies in the private state, which its statements change.
pub fn copy_of_line(alloc: Global, immediate: &Option<Atoms>) -> Result<Option<Atoms>, NoMemory>
    ensures { IfOk result (λ line. line ≡ immediate.now) }
{
    match immediate {
        Some(line) => Ok(Some(line.try_clone(alloc)?)),
        None => Ok(None),
    }
}

/// What the statement at the place of a partition plans. Where no unit is there it is ready.
pub fn plan(
    alloc: Global,
    me: &mut Private,
    lent: &mut Lent<'_>,
    devices: &DeviceTable,
) -> Result<Planned, NoMemory>
    ensures planned { IfOk result (λ p. record { me = me.new; globals = globals_lent lent.new; planned = p } ≡ spec.plan me.old (seen_lent lent.old)) }
    ensures same_texts { (lent.new.own ≡ lent.old.own) × (lent.new.home ≡ lent.old.home) }
    ensures same_reference { lent.new.globals.ghost_name ≡ lent.old.globals.ghost_name }
    ensures part { me.new.part ≡ me.old.part }
{
    let Some(place) = me.place else {
        return Ok(Planned::Done(Outcome::Ready));
    };
    match place.line {
        Some(n) => match lent.home.line(n) {
            Some(line) => plan_on(alloc, me, lent, &line.lend(), place),
            None => Ok(Planned::Done(Outcome::Ready)),
        },
        None => match copy_of_line(alloc, &me.immediate)? {
            Some(line) => plan_on(alloc, me, lent, &line.lend(), place),
            None => Ok(Planned::Done(Outcome::Ready)),
        },
    }
}
