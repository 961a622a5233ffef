// What the statement at a partition's place plans, and how it finishes.
ghost use Rattle.std.specs.Prelude.{◌≡◌, true, IfOk};
ghost use Rattle.b2_access.specs.Answering.{can_answer};
ghost use Rattle.b2_access.specs.Lending.{globals_lent, seen_lent};
ghost use Rattle.b2_rows.specs.Laws.{IsRow};
ghost use Rattle.b2_rows.specs.Rows.{tree_at};
ghost use Rattle.b2_expr.specs.Scope.{surroundings};
ghost use Rattle.b2_expr.specs.Value.{in_statement};
ghost use Rattle.b2_drive.specs.Drives.{drives_seen};
ghost use Rattle.b2_stmt_disk.specs.programs.Plan as spec;

use crate::programs::loading::{ask_to_load, finish_with};
use crate::programs::saving::ask_to_save;
use b2_access::{
    Access, Answer, DeviceTable, Lent, Outcome, Planned, Private, homes_entered, setting_of,
    statement_placed,
};
use b2_atom::rows;
use b2_base::codes::S27_LEFT_OUT;
use b2_base::{Code, Name8, NoMemory};
use b2_drive::{Drives, asks_or_fails, drives_for};
use b2_expr::{Env, Workspace, surroundings_of};
use b2_rows::RowUnit;
use std::alloc::Global;

/// Whether this crate builds a row.
pub fn is_built(row: u16) -> bool
    ensures { result ≡ spec.is_built row }
{
    row == rows::SAVE || row == rows::LOAD
}

/// What a statement asks for, in a line of the program or in an immediate line, or the first code from the left.
fn ask_on_programs(
    d: &Drives<'_>,
    e: &Env<'_>,
    declared: Option<Name8>,
    homes: u16,
    program: bool,
    unit: &RowUnit<'_>,
) -> Result<Access, Code>
    requires read { IsRow unit.now.row unit.now.bytes.now (tree_at unit.now.row unit.now.bytes.now) }
    ensures { result ≡ spec.asked_of (drives_seen d.now) (in_statement (surroundings e.now)) declared homes program unit.now.row (tree_at unit.now.row unit.now.bytes.now) }
{
    match unit.row {
        rows::SAVE => ask_to_save(d, e, unit.bytes),
        rows::LOAD => ask_to_load(d, e, declared, homes, program, unit.bytes),
        _ => Err(Code::known(S27_LEFT_OUT)),
    }
}

/// What the statement at the place of a partition plans, over the devices that there are. Where no unit is there it is ready.
pub fn plan(
    alloc: Global,
    me: &mut Private,
    lent: &mut Lent<'_>,
    devices: &DeviceTable,
) -> Result<Planned, NoMemory>
    ensures planned { IfOk result (λ p. record { me = me.new; globals = globals_lent lent.new; planned = p } ≡ spec.plan devices.now me.old (seen_lent lent.old)) }
    ensures same_texts { (lent.new.own ≡ lent.old.own) × (lent.new.home ≡ lent.old.home) }
    ensures same_globals { lent.new.globals.now ≡ lent.old.globals.now }
    ensures same_reference { lent.new.globals.ghost_name ≡ lent.old.globals.ghost_name }
    ensures part { me.new.part ≡ me.old.part }
{
    let Some(place) = me.place else {
        return Ok(Planned::Done(Outcome::Ready));
    };
    let d = drives_for(devices, me);
    let setting = setting_of(me);
    let Some(unit) = statement_placed(place, &me.immediate, lent.home) else {
        return Ok(Planned::Done(Outcome::Ready));
    };
    let declared = me.declared;
    let homes = homes_entered(&me.stack);
    let work = Workspace {
        own: &mut me.vars,
        globals: lent.globals,
        found: lent.found,
        reached: lent.reached,
        setting,
        home: lent.home,
    };
    let e = surroundings_of(&work);
    Ok(asks_or_fails(ask_on_programs(&d, &e, declared, homes, place.line.is_some(), &unit)))
}

/// How a statement finishes, by the access that it asked for and its answer, which is one that the access can have.
pub fn finish(
    alloc: Global,
    me: &mut Private,
    lent: &mut Lent<'_>,
    access: &Access,
    answer: &Answer,
) -> Result<Outcome, NoMemory>
    requires possible { can_answer access.now answer.now ≡ true }
    ensures finished { IfOk result (λ o. record { me = me.new; globals = globals_lent lent.new; outcome = o } ≡ spec.finish access.now answer.now me.old (seen_lent lent.old)) }
    ensures same_globals { lent.new.globals.now ≡ lent.old.globals.now }
    ensures same_reference { lent.new.globals.ghost_name ≡ lent.old.globals.ghost_name }
    ensures part { me.new.part ≡ me.old.part }
{
    Ok(finish_with(me, lent.own, access, answer))
}
