// What the statement at a partition's place plans, and how it finishes.
ghost use Rattle.std.specs.Prelude.{◌≡◌, true, IfOk};
ghost use Rattle.b2_access.specs.Answering.{can_answer};
ghost use Rattle.b2_access.specs.Lending.{globals_lent, seen_lent};
ghost use Rattle.b2_rows.specs.Laws.{IsRow};
ghost use Rattle.b2_rows.specs.Rows.{tree_at};
ghost use Rattle.b2_expr.specs.Scope.{surroundings};
ghost use Rattle.b2_expr.specs.Value.{in_statement};
ghost use Rattle.b2_drive.specs.Drives.{drives_seen};
ghost use Rattle.b2_stmt_disk.specs.Plan as spec;

use crate::limits::{ask_limits, give_limits, told_by};
use crate::listing::{ask_to_list, listing_of};
use crate::moving::ask_to_move;
use crate::scratching::{ask_to_format, ask_to_scratch};
use b2_access::{
    Access, Answer, DeviceTable, Lent, Outcome, Planned, Private, failed, goes_or, setting_of,
    statement_placed,
};
use b2_atom::rows;
use b2_base::codes::{S26_PROGRAM_ONLY, S27_LEFT_OUT};
use b2_base::{Addr, Code, NoMemory};
use b2_drive::{Drives, after_change, asks_or_fails, drives_for, select};
use b2_expr::{Env, Workspace, surroundings_of};
use b2_rows::RowUnit;
use std::alloc::Global;

/// Whether this crate builds a row.
pub fn is_built(row: u16) -> bool
    ensures { result ≡ spec.is_built row }
{
    matches!(
        row,
        rows::LIMITS
            | rows::SCRATCH
            | rows::SCRATCH_DISK
            | rows::LIST_DISK
            | rows::MOVE
            | rows::SELECT_DISK
    )
}

/// Whether a statement may not stand in a line of the program.
fn is_refused(row: u16, program: bool) -> bool
    ensures { result ≡ spec.is_refused row program }
{
    row == rows::LIST_DISK && program
}

/// What a statement asks for, or the first code from the left.
fn ask_on_disks(d: &Drives<'_>, e: &Env<'_>, unit: &RowUnit<'_>) -> Result<Access, Code>
    requires read { IsRow unit.now.row unit.now.bytes.now (tree_at unit.now.row unit.now.bytes.now) }
    ensures { result ≡ spec.asked_of (drives_seen d.now) (in_statement (surroundings e.now)) unit.now.row (tree_at unit.now.row unit.now.bytes.now) }
{
    match unit.row {
        rows::LIMITS => ask_limits(d, e, unit.bytes),
        rows::SCRATCH => ask_to_scratch(d, e, unit.bytes),
        rows::SCRATCH_DISK => ask_to_format(d, e, unit.bytes),
        rows::LIST_DISK => ask_to_list(d, unit.bytes),
        rows::MOVE => ask_to_move(d, e, unit.bytes),
        _ => Err(Code::known(S27_LEFT_OUT)),
    }
}

/// What the statement at the place of a partition plans, over the devices that there are. Where no unit is there it is ready.
#[tactic(auto, using(crate::proofs::Reached::selected_plans))]
pub fn plan(
    alloc: Global,
    me: &mut Private,
    lent: &mut Lent<'_>,
    devices: &DeviceTable,
) -> Result<Planned, NoMemory>
    ensures planned { IfOk result (λ p. record { me = me.new; globals = globals_lent lent.new; planned = p } ≡ spec.plan devices.now me.old (seen_lent lent.old)) }
    ensures same_texts { (lent.new.own ≡ lent.old.own) × (lent.new.home ≡ lent.old.home) }
    ensures same_reference { lent.new.globals.ghost_name ≡ lent.old.globals.ghost_name }
    ensures part { me.new.part ≡ me.old.part }
{
    let Some(place) = me.place else {
        return Ok(Planned::Done(Outcome::Ready));
    };
    let d = drives_for(devices, me);
    let setting = setting_of(me);
    let Some(unit) = statement_placed(place, &me.immediate, lent.home) else {
        return Ok(Planned::Done(Outcome::Ready));
    };
    if is_refused(unit.row, place.line.is_some()) {
        return Ok(Planned::Done(failed(S26_PROGRAM_ONLY)));
    }
    if unit.row == rows::SELECT_DISK {
        match select(&d, unit.bytes) {
            Ok(addr) => {
                me.disk = Some(addr);
                return Ok(Planned::Done(Outcome::Next));
            }
            Err(code) => return Ok(Planned::Done(Outcome::Failed(code))),
        }
    }
    let work = Workspace {
        own: &mut me.vars,
        globals: lent.globals,
        found: lent.found,
        reached: lent.reached,
        setting,
        home: lent.home,
    };
    let e = surroundings_of(&work);
    Ok(asks_or_fails(ask_on_disks(&d, &e, &unit)))
}

/// How the statement at the place of a partition finishes, by the access that it asked for and its answer, which is one that the
/// access can have.
#[tactic(auto, using(crate::proofs::Reached::listing_finishes))]
pub fn finish(
    alloc: Global,
    me: &mut Private,
    lent: &mut Lent<'_>,
    access: &Access,
    answer: &Answer,
) -> Result<Outcome, NoMemory>
    requires possible { can_answer access.now answer.now ≡ true }
    ensures finished { IfOk result (λ o. record { me = me.new; globals = globals_lent lent.new; outcome = o } ≡ spec.finish access.now answer.now me.old (seen_lent lent.old)) }
    ensures same_reference { lent.new.globals.ghost_name ≡ lent.old.globals.ghost_name }
    ensures part { me.new.part ≡ me.old.part }
{
    let Some(place) = me.place else {
        return Ok(Outcome::Repeat);
    };
    let setting = setting_of(me);
    let home = lent.home;
    let Some(unit) = statement_placed(place, &me.immediate, home) else {
        return Ok(Outcome::Repeat);
    };
    if is_refused(unit.row, place.line.is_some()) {
        return Ok(Outcome::Repeat);
    }
    match unit.row {
        rows::LIMITS => {
            let Some(told) = told_by(access, answer) else {
                return Ok(Outcome::Repeat);
            };
            let mut work = Workspace {
                own: &mut me.vars,
                globals: lent.globals,
                found: lent.found,
                reached: lent.reached,
                setting,
                home,
            };
            let code = give_limits(&mut work, told, unit.bytes)?;
            lent.reached = work.reached;
            Ok(goes_or(Outcome::Next, code))
        }
        rows::SCRATCH | rows::SCRATCH_DISK | rows::MOVE => Ok(after_change(access, answer)),
        rows::LIST_DISK => {
            let Some(listing) = listing_of(alloc, access, answer)? else {
                return Ok(Outcome::Repeat);
            };
            me.pending = Some((Addr::default(), listing));
            Ok(Outcome::Next)
        }
        _ => Ok(Outcome::Repeat),
    }
}
