// DATASAVE DC: what it asks for, and how it finishes.
ghost use Rattle.std.specs.Prelude.{◌≡◌, ◌≤◌, ◌==◌, true, false};
ghost use Rattle.b2_base.specs.Lexical.{first};
ghost use Rattle.b2_atom.specs.declared.words.TheConstants as word;
ghost use Rattle.b2_access.specs.Answering.{can_answer};
ghost use Rattle.b2_atom.specs.declared.rows.TheConstants as row;
ghost use Rattle.b2_rows.specs.Rows.{is_phrase, tree_at};
ghost use Rattle.b2_expr.specs.Scope.{surroundings};
ghost use Rattle.b2_expr.specs.Value.{in_statement};
ghost use Rattle.b2_drive.specs.Drives.{drives_seen};
ghost use Rattle.b2_stmt_file.specs.Asking.{GivesAccess};
ghost use Rattle.b2_stmt_file.specs.Saving as spec;

use crate::asking::or_fault;
use crate::file_answers::{Came, came_of_moving, came_of_opening};
use crate::opening::{ask_for_new, slot_of_new};
use crate::saved_values::saved_values;
use crate::slots::{file_used, past_slot, slot_written};
use b2_access::{Access, Answer};
use b2_atom::words::{END, OPEN};
use b2_base::lexical::rest_after;
use b2_base::{Fault, Slot};
use b2_drive::Drives;
use b2_expr::Env;
use b2_rows::is_at;
use std::alloc::Global;

/// What the end mark or a record asks for, at the place in a file.
fn ask_for_file(alloc: Global, e: &Env<'_>, slot: Slot, text: &[u8]) -> Result<Access, Fault>
    requires list { (first text.now == word.END) ≡ false → is_phrase row.SAVED_LIST text.now ≡ true }
    ensures { GivesAccess (spec.saved (in_statement (surroundings e.now)) slot (spec.what_at text.now)) result }
{
    if is_at(END, text) {
        return Ok(Access::DataEnd { slot });
    }
    match saved_values(alloc, e, text) {
        Ok(values) => Ok(Access::DataSave { slot, values }),
        Err(fault) => Err(fault),
    }
}

/// What a record or an end mark asks for: its slot first.
#[tactic(auto, using(crate::proofs::SaveRows::saved_slot, crate::proofs::SaveRows::list_here))]
fn ask_in_file(
    alloc: Global,
    d: &Drives<'_>,
    slots: &[Option<Slot>; 16],
    e: &Env<'_>,
    text: &[u8],
) -> Result<Access, Fault>
    requires phrase { is_phrase row.SAVED_VALUES text.now ≡ true }
    ensures { GivesAccess (spec.saves_in (drives_seen d.now) slots.now (in_statement (surroundings e.now)) (tree_at row.SAVED_VALUES text.now)) result }
{
    match file_used(d, slots, slot_written(text)) {
        Ok(slot) => ask_for_file(alloc, e, slot, past_slot(text)),
        Err(code) => Err(Fault::Code(code)),
    }
}

/// What DATASAVE DC asks for.
#[tactic(auto, using(crate::proofs::SaveRows::new_here, crate::proofs::SaveRows::saved_here, crate::proofs::SaveRows::asks_of_new, crate::proofs::SaveRows::asks_of_saved))]
pub fn ask_to_save(
    alloc: Global,
    d: &Drives<'_>,
    slots: &[Option<Slot>; 16],
    e: &Env<'_>,
    unit: &[u8],
) -> Result<Access, Fault>
    requires phrase { is_phrase row.DATASAVE unit.now ≡ true }
    ensures { GivesAccess (spec.asks_to_save (drives_seen d.now) slots.now (in_statement (surroundings e.now)) (tree_at row.DATASAVE unit.now)) result }
{
    let text = rest_after(rest_after(unit, 1), 1);
    if is_at(OPEN, text) {
        or_fault(ask_for_new(d, e, text))
    } else {
        ask_in_file(alloc, d, slots, e, text)
    }
}

/// The slot of DATASAVE DC.
#[tactic(auto, using(crate::proofs::SaveRows::new_here, crate::proofs::SaveRows::saved_here, crate::proofs::SaveRows::saved_slot, crate::proofs::SaveRows::slot_new, crate::proofs::SaveRows::slot_saved_is))]
pub fn slot_of_save(unit: &[u8]) -> u8
    requires phrase { is_phrase row.DATASAVE unit.now ≡ true }
    ensures value { result ≡ spec.slot_of (tree_at row.DATASAVE unit.now) }
    ensures small { result ≤ 15 }
{
    let text = rest_after(rest_after(unit, 1), 1);
    if is_at(OPEN, text) {
        slot_of_new(text)
    } else {
        slot_written(text)
    }
}

/// What came of DATASAVE DC.
#[tactic(auto, using(crate::proofs::SaveRows::came_new, crate::proofs::SaveRows::came_saved))]
pub fn came_of_save(access: &Access, answer: &Answer, unit: &[u8]) -> Came
    requires phrase { is_phrase row.DATASAVE unit.now ≡ true }
    requires possible { can_answer access.now answer.now ≡ true }
    ensures { result ≡ spec.came_of access.now answer.now (tree_at row.DATASAVE unit.now) }
{
    if is_at(OPEN, rest_after(rest_after(unit, 1), 1)) {
        came_of_opening(access, answer)
    } else {
        came_of_moving(access, answer)
    }
}
