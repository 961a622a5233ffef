// What the statement at a partition's place plans, and how it finishes.
ghost use Rattle.std.specs.Prelude.{◌≡◌, ◌≤◌, true, IfOk};
ghost use Rattle.b2_access.specs.Answering.{can_answer};
ghost use Rattle.b2_access.specs.Lending.{globals_lent, seen_lent};
ghost use Rattle.b2_rows.specs.Laws.{IsRow};
ghost use Rattle.b2_rows.specs.Rows.{tree_at};
ghost use Rattle.b2_access.specs.Dispatch.{units_on};
ghost use Rattle.b2_access.specs.Placed.{line_named, statement_placed};
ghost use Rattle.b2_access.specs.Working.{planned_of};
ghost use Rattle.b2_expr.specs.Scope.{surroundings};
ghost use Rattle.b2_expr.specs.Value.{in_statement};
ghost use Rattle.b2_drive.specs.Drives.{drives_seen};
ghost use Rattle.b2_stmt_file.specs.Asking.{GivesAccess};
ghost use Rattle.b2_stmt_file.specs.Plan as spec;

use crate::asking::or_fault;
use crate::ending::if_end;
use crate::file_answers::{
    came_of_loading, came_of_moving, came_of_opening, end_after, keep_file, outcome_of,
    values_loaded,
};
use crate::loading::{ask_to_load, past_words, slot_of_load, take_loaded};
use crate::opening::slot_of_old;
use crate::saving::{ask_to_save, came_of_save, slot_of_save};
use crate::skipping::{ask_to_go_back, ask_to_skip, slot_of_back, slot_of_skip};
use b2_access::{
    Access, Answer, DeviceTable, Lent, Outcome, Planned, Private, failing, goes_or, setting_of,
    statement_placed,
};
use b2_atom::words::OPEN;
use b2_atom::{Atoms, rows};
use b2_base::codes::S27_LEFT_OUT;
use b2_base::{Code, Fault, NoMemory, Slot};
use b2_drive::{Drives, drives_for};
use b2_expr::{Env, Workspace, surroundings_of};
use b2_flow::Place;
use b2_rows::is_at;
use b2_text::Text;
use std::alloc::Global;

/// Whether this crate builds a row.
pub fn is_built(row: u16) -> bool
    ensures { result ≡ spec.is_built row }
{
    matches!(
        row,
        rows::DATASAVE | rows::DATALOAD | rows::DSKIP | rows::DBACKSPACE | rows::IF_END
    )
}

/// What a statement asks for, or the first code from the left.
fn ask_on_files(
    alloc: Global,
    d: &Drives<'_>,
    slots: &[Option<Slot>; 16],
    e: &Env<'_>,
    row: u16,
    unit: &[u8],
) -> Result<Access, Fault>
    requires read { IsRow row unit.now (tree_at row unit.now) }
    ensures { GivesAccess (spec.asked_of (drives_seen d.now) slots.now (in_statement (surroundings e.now)) row (tree_at row unit.now)) result }
{
    match row {
        rows::DATASAVE => ask_to_save(alloc, d, slots, e, unit),
        rows::DATALOAD => ask_to_load(alloc, d, slots, e, unit),
        rows::DSKIP => or_fault(ask_to_skip(d, slots, e, unit)),
        rows::DBACKSPACE => or_fault(ask_to_go_back(d, slots, e, unit)),
        _ => Err(Fault::Code(Code::known(S27_LEFT_OUT))),
    }
}

/// How IF END ends, where it stands at a place; None where another statement does, or none.
fn ended_there<'a>(
    immediate: &'a Option<Atoms>,
    home: &'a Text,
    place: &Place,
    at_end: bool,
) -> Option<Outcome>
    ensures { result ≡ spec.ended_there at_end (statement_placed place.now immediate.now home.now.lines) (record { place = place.now; units = units_on (line_named immediate.now home.now.lines place.now.line) }) home.now.lines }
{
    let Some(unit) = statement_placed(*place, immediate, home) else {
        return None;
    };
    if unit.row == rows::IF_END {
        Some(if_end(immediate, home, place, at_end, unit.bytes))
    } else {
        None
    }
}

/// What the statement at a place asks for.
#[tactic(auto, using(crate::proofs::Refusals::asked_refused))]
fn plan_access(
    alloc: Global,
    me: &mut Private,
    lent: &mut Lent<'_>,
    devices: &DeviceTable,
    place: &Place,
) -> Result<Planned, NoMemory>
    ensures planned { IfOk result (λ p. p ≡ planned_of (spec.asking devices.now me.old (seen_lent lent.old) (statement_placed place.now me.old.immediate lent.old.home.now.lines))) }
    ensures same { me.new ≡ me.old }
    ensures same_texts { (lent.new.own ≡ lent.old.own) × (lent.new.home ≡ lent.old.home) }
    ensures same_globals { globals_lent lent.new ≡ globals_lent lent.old }
    ensures same_reference { lent.new.globals.ghost_name ≡ lent.old.globals.ghost_name }
{
    let d = drives_for(devices, me);
    let setting = setting_of(me);
    let Some(unit) = statement_placed(*place, &me.immediate, lent.home) else {
        return Ok(Planned::Done(Outcome::Ready));
    };
    let work = Workspace {
        own: &mut me.vars,
        globals: lent.globals,
        found: lent.found,
        reached: lent.reached,
        setting,
        home: lent.home,
    };
    let e = surroundings_of(&work);
    match ask_on_files(alloc, &d, &me.slots, &e, unit.row, unit.bytes) {
        Ok(access) => Ok(Planned::Ask(access)),
        Err(fault) => Ok(Planned::Done(failing(fault)?)),
    }
}

/// What the statement at the place of a partition plans, over the devices that there are. Where no unit is there it is ready.
#[tactic(auto, using(crate::proofs::Ended::ended_is, crate::proofs::Ended::asked_is))]
pub fn plan(
    alloc: Global,
    me: &mut Private,
    lent: &mut Lent<'_>,
    devices: &DeviceTable,
) -> Result<Planned, NoMemory>
    ensures planned { IfOk result (λ p. record { me = me.new; globals = globals_lent lent.new; planned = p } ≡ spec.plan devices.now me.old (seen_lent lent.old)) }
    ensures same_texts { (lent.new.own ≡ lent.old.own) × (lent.new.home ≡ lent.old.home) }
    ensures same_reference { lent.new.globals.ghost_name ≡ lent.old.globals.ghost_name }
    ensures part { me.new.part ≡ me.old.part }
{
    let Some(place) = me.place else {
        return Ok(Planned::Done(Outcome::Ready));
    };
    if let Some(outcome) = ended_there(&me.immediate, lent.home, &place, me.at_end) {
        return Ok(Planned::Done(outcome));
    }
    plan_access(alloc, me, lent, devices, &place)
}

/// How the statement at the place of a partition finishes, by the access that it asked for and its answer, which is one that the
/// access can have.
#[tactic(auto, using(crate::proofs::LoadRows::old_here, crate::proofs::LoadRows::loaded_here, crate::proofs::LoadRows::ends_of_old, crate::proofs::LoadRows::ends_of_values, crate::proofs::LoadRows::loaded_lent))]
pub fn finish(
    alloc: Global,
    me: &mut Private,
    lent: &mut Lent<'_>,
    access: &Access,
    answer: &Answer,
) -> Result<Outcome, NoMemory>
    requires possible { can_answer access.now answer.now ≡ true }
    ensures finished { IfOk result (λ o. record { me = me.new; globals = globals_lent lent.new; outcome = o } ≡ spec.finish access.now answer.now me.old (seen_lent lent.old)) }
    ensures same_reference { lent.new.globals.ghost_name ≡ lent.old.globals.ghost_name }
    ensures part { me.new.part ≡ me.old.part }
{
    let Some(place) = me.place else {
        return Ok(Outcome::Repeat);
    };
    let setting = setting_of(me);
    let home = lent.home;
    let Some(unit) = statement_placed(place, &me.immediate, home) else {
        return Ok(Outcome::Repeat);
    };
    match unit.row {
        rows::DATASAVE => {
            let came = came_of_save(access, answer, unit.bytes);
            keep_file(&mut me.slots, slot_of_save(unit.bytes), &came);
            Ok(outcome_of(&came))
        }
        rows::DATALOAD => {
            let text = past_words(unit.bytes);
            if is_at(OPEN, text) {
                let came = came_of_opening(access, answer);
                keep_file(&mut me.slots, slot_of_old(text), &came);
                return Ok(outcome_of(&came));
            }
            let came = came_of_loading(access, answer);
            keep_file(&mut me.slots, slot_of_load(text), &came);
            me.at_end = end_after(&came, me.at_end);
            let mut work = Workspace {
                own: &mut me.vars,
                globals: lent.globals,
                found: lent.found,
                reached: lent.reached,
                setting,
                home,
            };
            let code = take_loaded(&mut work, &came, values_loaded(access, answer), text)?;
            lent.reached = work.reached;
            Ok(goes_or(outcome_of(&came), code))
        }
        rows::DSKIP => {
            let came = came_of_moving(access, answer);
            keep_file(&mut me.slots, slot_of_skip(unit.bytes), &came);
            Ok(outcome_of(&came))
        }
        rows::DBACKSPACE => {
            let came = came_of_moving(access, answer);
            keep_file(&mut me.slots, slot_of_back(unit.bytes), &came);
            Ok(outcome_of(&came))
        }
        _ => Ok(Outcome::Repeat),
    }
}
