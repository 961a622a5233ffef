// The slots of a partition, and the counts of statements on them.
ghost use Rattle.std.specs.Prelude.{◌≡◌, ◌≤◌, true, get_or, None};
ghost use Rattle.b2_atom.specs.declared.rows.TheConstants as row;
ghost use Rattle.b2_rows.specs.Optional.{after_maybe, maybe_phrase};
ghost use Rattle.b2_rows.specs.Rows.{is_phrase, tree_at};
ghost use Rattle.b2_expr.specs.Scope.{surroundings};
ghost use Rattle.b2_expr.specs.Value.{in_statement};
ghost use Rattle.b2_drive.specs.Drives.{drives_seen};
ghost use Rattle.b2_stmt_file.specs.Counts as count;
ghost use Rattle.b2_stmt_file.specs.Slots as spec;
ghost use Rattle.b2_stmt_file.specs.Slots.{number_sign};

use b2_atom::Cursor;
use b2_base::codes::{D80_NOT_OPEN, P34_RANGE, P48_DEVICE};
use b2_base::lexical::{digits_width, rest_after};
use b2_base::{Code, Slot};
use b2_drive::Drives;
use b2_expr::{Env, fixed, number};
use b2_rows::{is_at, slot_at};

/// The number of the slot that is written at a text, 0 where none is.
#[tactic(auto, using(crate::proofs::SlotRows::written_here, crate::proofs::SlotRows::written_is, crate::proofs::SlotRows::none_is))]
pub fn slot_written(text: &[u8]) -> u8
    requires phrase { maybe_phrase number_sign row.SLOT text.now ≡ true }
    ensures value { result ≡ spec.slot_in (spec.slot_tree text.now) }
    ensures small { result ≤ 15 }
{
    if is_at(b'#', text) { slot_at(text) } else { 0 }
}

/// What stands after the slot that is written at a text, if one is.
#[tactic(auto, using(crate::proofs::SlotRows::written_rest, crate::proofs::SlotRows::none_rest))]
pub fn past_slot(text: &[u8]) -> &[u8]
    requires phrase { maybe_phrase number_sign row.SLOT text.now ≡ true }
    ensures { result.now ≡ after_maybe number_sign row.SLOT text.now }
{
    if is_at(b'#', text) {
        let digits = rest_after(text, 1);
        rest_after(rest_after(digits, digits_width(digits)), 1)
    } else {
        text
    }
}

/// The file that a slot holds, D80 where it holds none.
fn file_held(held: Option<Slot>) -> Result<Slot, Code>
    ensures { result ≡ spec.file_held held }
{
    match held {
        Some(slot) => {
            if slot.start <= slot.pos {
                Ok(slot)
            } else {
                Err(Code::known(D80_NOT_OPEN))
            }
        }
        None => Err(Code::known(D80_NOT_OPEN)),
    }
}

/// The open file in a slot, on a platter that the partition may use: D80 comes first, then P48.
pub fn file_used(d: &Drives<'_>, slots: &[Option<Slot>; 16], n: u8) -> Result<Slot, Code>
    requires small { n ≤ 15 }
    ensures { result ≡ spec.file_used (drives_seen d.now) slots.now n }
{
    match file_held(slots[usize::from(n)]) {
        Ok(slot) => {
            if d.devices.platter(d.who, slot.addr) {
                Ok(slot)
            } else {
                Err(Code::known(P48_DEVICE))
            }
        }
        Err(code) => Err(code),
    }
}

/// A count, P34 where it isn't from a least one to 16,777,215.
fn count_from(least: u32, n: Option<i64>) -> Result<u32, Code>
    ensures { result ≡ count.count_from least n }
{
    match n {
        Some(n) if i64::from(least) <= n && n <= 16_777_215 => Ok(n as u32),
        _ => Err(Code::known(P34_RANGE)),
    }
}

/// The count at a text.
pub fn count_at(least: u32, e: &Env<'_>, text: &[u8]) -> Result<u32, Code>
    requires phrase { is_phrase row.SUM text.now ≡ true }
    ensures { result ≡ count.count_given least (in_statement (surroundings e.now)) (tree_at row.SUM text.now) }
{
    match number(&mut Cursor::over(text), e) {
        Ok(x) => count_from(least, fixed(x)),
        Err(code) => Err(code),
    }
}
