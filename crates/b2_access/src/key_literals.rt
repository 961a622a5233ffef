// What a special function key types: the literal of the DEFFN' of its number.
ghost use Rattle.std.specs.Prelude.{◌≡◌, true, option_copied};
ghost use Rattle.b2_atom.specs.declared.rows.TheConstants as row;
ghost use Rattle.b2_rows.specs.Laws.{IsRow};
ghost use Rattle.b2_rows.specs.Rows.{is_phrase, tree_at};
ghost use Rattle.b2_access.specs.KeyLiterals as spec;

use crate::placed::statement_on;
use b2_atom::rows;
use b2_base::lexical::{digits_width, rest_after};
use b2_rows::{RowUnit, is_at, quoted_at};
use b2_text::Text;

/// The literal of a DEFFN', where it has one.
#[tactic(auto, using(crate::proofs::MarkRows::mark_literal, crate::proofs::MarkRows::mark_with, crate::proofs::MarkRows::mark_without))]
fn mark_bytes(unit: &[u8]) -> Option<&[u8]>
    requires phrase { is_phrase row.DEFFN_MARKED unit.now ≡ true }
    ensures { option_copied result ≡ spec.mark_bytes (tree_at row.DEFFN_MARKED unit.now) }
{
    let number = rest_after(unit, 1);
    let text = rest_after(number, digits_width(number));
    if is_at(b'"', text) {
        Some(quoted_at(text))
    } else {
        None
    }
}

/// The same of a unit that may be another.
fn bytes_of_mark<'a>(unit: &RowUnit<'a>) -> Option<&'a [u8]>
    requires read { IsRow unit.now.row unit.now.bytes.now (tree_at unit.now.row unit.now.bytes.now) }
    ensures { option_copied result ≡ spec.bytes_of_mark (record { row = unit.now.row; tree = tree_at unit.now.row unit.now.bytes.now }) }
{
    match unit.row {
        rows::DEFFN_MARKED => mark_bytes(unit.bytes),
        _ => None,
    }
}

/// What a special function key types, where the DEFFN' of its number in a text has a literal.
pub fn typed_by_mark(text: &Text, n: u8) -> Option<&[u8]>
    ensures { option_copied result ≡ spec.typed_by_mark n text.now.lines }
{
    let Some(spot) = text.marked(n) else {
        return None;
    };
    let Some(line) = text.line(spot.line) else {
        return None;
    };
    let Some(unit) = statement_on(&line.lend(), usize::from(spot.unit)) else {
        return None;
    };
    bytes_of_mark(&unit)
}
