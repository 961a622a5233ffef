// DATALOAD DC: what it asks for, and how it finishes.
ghost use Rattle.std.specs.Prelude.{◌≡◌, ◌≤◌, true, IfOk};
ghost use Rattle.b2_atom.specs.declared.rows.TheConstants as row;
ghost use Rattle.b2_rows.specs.Rows.{is_phrase, tree_at};
ghost use Rattle.b2_expr.specs.Scope.{surroundings};
ghost use Rattle.b2_expr.specs.Value.{in_statement};
ghost use Rattle.b2_expr.specs.Workspace.{SameReferences, workspace};
ghost use Rattle.b2_drive.specs.Drives.{drives_seen};
ghost use Rattle.b2_stmt_file.specs.Asking.{GivesAccess};
ghost use Rattle.b2_stmt_file.specs.Loading as spec;

use crate::asking::or_fault;
use crate::file_answers::Came;
use crate::loaded_values::{kinds_at, take_values};
use crate::opening::ask_for_old;
use crate::slots::{file_used, past_slot, slot_written};
use b2_access::Access;
use b2_atom::words::OPEN;
use b2_base::lexical::rest_after;
use b2_base::{Code, Fault, NoMemory, Slot};
use b2_dec::Value;
use b2_drive::Drives;
use b2_expr::{Env, Workspace};
use b2_rows::is_at;
use std::alloc::Global;

/// What values ask for: their slot first, and then the kinds of the receivers.
#[tactic(auto, using(crate::proofs::LoadRows::loaded_slot, crate::proofs::LoadRows::first_item, crate::proofs::LoadRows::item_list))]
fn ask_for_values(
    alloc: Global,
    d: &Drives<'_>,
    slots: &[Option<Slot>; 16],
    e: &Env<'_>,
    text: &[u8],
) -> Result<Access, Fault>
    requires phrase { is_phrase row.LOADED_VALUES text.now ≡ true }
    ensures { GivesAccess (spec.loads_in (drives_seen d.now) slots.now (in_statement (surroundings e.now)) (tree_at row.LOADED_VALUES text.now)) result }
{
    match file_used(d, slots, slot_written(text)) {
        Ok(slot) => match kinds_at(alloc, e, past_slot(text)) {
            Ok(kinds) => Ok(Access::DataLoad { slot, kinds }),
            Err(fault) => Err(fault),
        },
        Err(code) => Err(Fault::Code(code)),
    }
}

/// What stands after `DATALOAD DC`.
pub fn past_words(unit: &[u8]) -> &[u8]
    ensures { result.now ≡ spec.operands_text unit.now }
{
    rest_after(rest_after(unit, 1), 1)
}

/// What DATALOAD DC asks for.
#[tactic(auto, using(crate::proofs::LoadRows::old_here, crate::proofs::LoadRows::loaded_here, crate::proofs::LoadRows::asks_of_old, crate::proofs::LoadRows::asks_of_values))]
pub fn ask_to_load(
    alloc: Global,
    d: &Drives<'_>,
    slots: &[Option<Slot>; 16],
    e: &Env<'_>,
    unit: &[u8],
) -> Result<Access, Fault>
    requires phrase { is_phrase row.DATALOAD unit.now ≡ true }
    ensures { GivesAccess (spec.asks_to_load (drives_seen d.now) slots.now (in_statement (surroundings e.now)) (tree_at row.DATALOAD unit.now)) result }
{
    let text = past_words(unit);
    if is_at(OPEN, text) {
        or_fault(ask_for_old(d, e, text))
    } else {
        ask_for_values(alloc, d, slots, e, text)
    }
}

/// The slot from which values are loaded.
#[tactic(auto, using(crate::proofs::LoadRows::loaded_slot, crate::proofs::LoadRows::slot_loaded_is))]
pub fn slot_of_load(text: &[u8]) -> u8
    requires phrase { is_phrase row.LOADED_VALUES text.now ≡ true }
    ensures value { result ≡ spec.slot_loaded (tree_at row.LOADED_VALUES text.now) }
    ensures small { result ≤ 15 }
{
    slot_written(text)
}

/// Gives the values that came to the receivers. The code with which that ended, or none.
#[tactic(auto, using(crate::proofs::LoadRows::loaded_slot, crate::proofs::LoadRows::first_item, crate::proofs::LoadRows::item_list, crate::proofs::LoadRows::items_are))]
pub fn take_loaded(
    work: &mut Workspace<'_>,
    came: &Came,
    values: &[Value],
    text: &[u8],
) -> Result<Option<Code>, NoMemory>
    requires phrase { is_phrase row.LOADED_VALUES text.now ≡ true }
    ensures worked { IfOk result (λ code. record { work = workspace work.new; code = code } ≡ spec.takes_by came.now values.now (spec.items_loaded (tree_at row.LOADED_VALUES text.now)) (workspace work.old)) }
    ensures same_references { SameReferences work.old work.new }
{
    match came {
        Came::File(_) => take_values(work, values, past_slot(text)),
        _ => Ok(None),
    }
}
