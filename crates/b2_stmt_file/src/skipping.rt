// DSKIP and DBACKSPACE: what they ask for.
ghost use Rattle.std.specs.Prelude.{◌≡◌, ◌≤◌, true};
ghost use Rattle.b2_base.specs.Byte as byte;
ghost use Rattle.b2_atom.specs.Grammar.{starts};
ghost use Rattle.b2_atom.specs.declared.rows.TheConstants as row;
ghost use Rattle.b2_atom.specs.declared.words.Origin.TheVariants.{Atoms};
ghost use Rattle.b2_atom.specs.declared.forms.Start.TheVariants as start;
ghost use Rattle.b2_rows.specs.Rows.{is_phrase, tree_at};
ghost use Rattle.b2_expr.specs.Scope.{surroundings};
ghost use Rattle.b2_expr.specs.Value.{in_statement};
ghost use Rattle.b2_drive.specs.Drives.{drives_seen};
ghost use Rattle.b2_stmt_file.specs.Skipping as spec;

use crate::slots::{count_at, file_used, past_slot, slot_written};
use b2_access::Access;
use b2_atom::words::END;
use b2_base::lexical::{at, first, rest_after};
use b2_base::{By, Code, Slot};
use b2_drive::Drives;
use b2_expr::Env;
use b2_rows::is_at;

/// Whether BEG begins at a text.
#[tactic(auto, unfolding(b2_atom::specs::Grammar::starts))]
fn is_beginning_at(text: &[u8]) -> bool
    ensures { result ≡ starts Atoms (start.Letters byte.upper_b byte.upper_e byte.upper_g) text.now }
{
    let after = rest_after(text, 1);
    first(text) == b'B' && at(after, 0) == b'E' && at(after, 1) == b'G'
}

/// What DSKIP asks for: its slot first, and then how far it goes.
#[tactic(auto, using(crate::proofs::SkipRows::skip_slot, crate::proofs::SkipRows::skip_count, crate::proofs::SkipRows::skip_is, crate::proofs::SkipRows::skip_end, crate::proofs::SkipRows::skip_over))]
pub fn ask_to_skip(
    d: &Drives<'_>,
    slots: &[Option<Slot>; 16],
    e: &Env<'_>,
    unit: &[u8],
) -> Result<Access, Code>
    requires phrase { is_phrase row.DSKIP unit.now ≡ true }
    ensures { result ≡ spec.asks_to_skip spec.forward (drives_seen d.now) slots.now (in_statement (surroundings e.now)) (tree_at row.DSKIP unit.now) }
{
    let text = rest_after(unit, 1);
    let slot = match file_used(d, slots, slot_written(text)) {
        Ok(slot) => slot,
        Err(code) => return Err(code),
    };
    let operand = past_slot(text);
    if is_at(END, operand) {
        return Ok(Access::Skip { slot, by: By::End });
    }
    match count_at(1, e, operand) {
        Ok(n) => Ok(Access::Skip {
            slot,
            by: By::Forward(n),
        }),
        Err(code) => Err(code),
    }
}

/// What DBACKSPACE asks for, as `ask_to_skip`.
#[tactic(auto, using(crate::proofs::SkipRows::back_slot, crate::proofs::SkipRows::back_count, crate::proofs::SkipRows::back_is, crate::proofs::SkipRows::back_begin, crate::proofs::SkipRows::back_over))]
pub fn ask_to_go_back(
    d: &Drives<'_>,
    slots: &[Option<Slot>; 16],
    e: &Env<'_>,
    unit: &[u8],
) -> Result<Access, Code>
    requires phrase { is_phrase row.DBACKSPACE unit.now ≡ true }
    ensures { result ≡ spec.asks_to_skip spec.back (drives_seen d.now) slots.now (in_statement (surroundings e.now)) (tree_at row.DBACKSPACE unit.now) }
{
    let text = rest_after(unit, 1);
    let slot = match file_used(d, slots, slot_written(text)) {
        Ok(slot) => slot,
        Err(code) => return Err(code),
    };
    let operand = past_slot(text);
    if is_beginning_at(operand) {
        return Ok(Access::Skip {
            slot,
            by: By::Begin,
        });
    }
    match count_at(1, e, operand) {
        Ok(n) => Ok(Access::Skip {
            slot,
            by: By::Back(n),
        }),
        Err(code) => Err(code),
    }
}

/// The slot of DSKIP.
#[tactic(auto, using(crate::proofs::SkipRows::skip_slot, crate::proofs::SkipRows::skip_skipped))]
pub fn slot_of_skip(unit: &[u8]) -> u8
    requires phrase { is_phrase row.DSKIP unit.now ≡ true }
    ensures value { result ≡ spec.slot_skipped (tree_at row.DSKIP unit.now) }
    ensures small { result ≤ 15 }
{
    slot_written(rest_after(unit, 1))
}

/// The slot of DBACKSPACE.
#[tactic(auto, using(crate::proofs::SkipRows::back_slot, crate::proofs::SkipRows::back_skipped))]
pub fn slot_of_back(unit: &[u8]) -> u8
    requires phrase { is_phrase row.DBACKSPACE unit.now ≡ true }
    ensures value { result ≡ spec.slot_skipped (tree_at row.DBACKSPACE unit.now) }
    ensures small { result ≤ 15 }
{
    slot_written(rest_after(unit, 1))
}
