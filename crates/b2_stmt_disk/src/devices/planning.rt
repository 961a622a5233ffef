// What the statement at a partition's place plans, and how it finishes.
ghost use Rattle.std.specs.Prelude.{◌≡◌, true, IfOk};
ghost use Rattle.b2_access.specs.Answering.{can_answer};
ghost use Rattle.b2_access.specs.Lending.{globals_lent, seen_lent};
ghost use Rattle.b2_stmt_disk.specs.devices.Plan as spec;

use crate::devices::freeing::{after_freeing, plan_to_free};
use crate::devices::held::keep_held;
use crate::devices::selecting::{device_selected, select};
use crate::devices::taking::{after_taking, ask_to_take, line_if_busy};
use b2_access::{
    Access, Answer, DeviceTable, Lent, Outcome, Planned, Private, failed, statement_placed,
};
use b2_atom::rows;
use b2_base::NoMemory;
use b2_base::codes::S27_LEFT_OUT;
use b2_drive::asks_or_fails;
use std::alloc::Global;

/// Whether this crate builds a row.
pub fn is_built(row: u16) -> bool
    ensures { result ≡ spec.is_built row }
{
    matches!(row, rows::OPEN | rows::CLOSE | rows::SELECT_PRINT)
}

/// What the statement at the place of a partition plans, over the devices that there are. Where no unit is there it is ready.
#[tactic(auto, using(crate::proofs::of_devices::Reached::selected_plans))]
pub fn plan(
    alloc: Global,
    me: &mut Private,
    lent: &mut Lent<'_>,
    devices: &DeviceTable,
) -> Result<Planned, NoMemory>
    ensures planned { IfOk result (λ p. record { me = me.new; globals = globals_lent lent.new; planned = p } ≡ spec.plan devices.now me.old (seen_lent lent.old)) }
    ensures same_texts { (lent.new.own ≡ lent.old.own) × (lent.new.home ≡ lent.old.home) }
    ensures same_globals { lent.new.globals.now ≡ lent.old.globals.now }
    ensures same_reference { lent.new.globals.ghost_name ≡ lent.old.globals.ghost_name }
    ensures part { me.new.part ≡ me.old.part }
{
    let Some(place) = me.place else {
        return Ok(Planned::Done(Outcome::Ready));
    };
    let Some(unit) = statement_placed(place, &me.immediate, lent.home) else {
        return Ok(Planned::Done(Outcome::Ready));
    };
    match unit.row {
        rows::OPEN => Ok(asks_or_fails(ask_to_take(devices, me.part, unit.bytes))),
        rows::CLOSE => Ok(plan_to_free(devices, me, unit.bytes)),
        rows::SELECT_PRINT => {
            let device = device_selected(devices, me.part, unit.bytes);
            Ok(Planned::Done(select(me, device)))
        }
        _ => Ok(Planned::Done(failed(S27_LEFT_OUT))),
    }
}

/// How the statement at the place of a partition finishes, by the access that it asked for and its answer, which is one that the
/// access can have. What is held then is by these two alone.
pub fn finish(
    alloc: Global,
    me: &mut Private,
    lent: &mut Lent<'_>,
    access: &Access,
    answer: &Answer,
) -> Result<Outcome, NoMemory>
    requires possible { can_answer access.now answer.now ≡ true }
    ensures finished { IfOk result (λ o. record { me = me.new; globals = globals_lent lent.new; outcome = o } ≡ spec.finish access.now answer.now me.old (seen_lent lent.old)) }
    ensures same_globals { lent.new.globals.now ≡ lent.old.globals.now }
    ensures same_reference { lent.new.globals.ghost_name ≡ lent.old.globals.ghost_name }
    ensures part { me.new.part ≡ me.old.part }
{
    keep_held(&mut me.held, access, answer);
    let Some(place) = me.place else {
        return Ok(Outcome::Repeat);
    };
    let Some(unit) = statement_placed(place, &me.immediate, lent.home) else {
        return Ok(Outcome::Repeat);
    };
    match unit.row {
        rows::OPEN => {
            let line = line_if_busy(unit.bytes);
            Ok(after_taking(lent.home, &place, access, answer, line))
        }
        rows::CLOSE => Ok(after_freeing(access, answer)),
        _ => Ok(Outcome::Repeat),
    }
}
