// The numbers of lines that are named from one to another.
ghost use Rattle.std.specs.Prelude.{◌≡◌, true};
ghost use Rattle.b2_atom.specs.declared.forms.Start.TheVariants as start;
ghost use Rattle.b2_atom.specs.declared.rows.TheConstants as row;
ghost use Rattle.b2_rows.specs.LineNumbers as spec;
ghost use Rattle.b2_rows.specs.Optional.{maybe_phrase, maybe_tree};

use crate::begins::{is_at, is_line_at};
use crate::leaves::line_at;
use b2_base::lexical::rest_after;

/// The first of the lines that are named at a text, and the last where a second one is named; or all lines, where none is named.
#[tactic(auto, using(crate::proofs::NamedLines::first_here, crate::proofs::NamedLines::second_here, crate::proofs::NamedLines::two_lines, crate::proofs::NamedLines::one_line, crate::proofs::NamedLines::all_lines))]
pub fn named_lines(text: &[u8]) -> (u16, Option<u16>)
    requires phrase { maybe_phrase start.Line row.LINE_NUMBERS text.now ≡ true }
    ensures { result ≡ spec.named_lines (maybe_tree start.Line row.LINE_NUMBERS text.now) }
{
    if !is_line_at(text) {
        return (0, Some(9999));
    }
    let first = line_at(text);
    let after = rest_after(text, 3);
    if is_at(b',', after) {
        (first, Some(line_at(rest_after(after, 1))))
    } else {
        (first, None)
    }
}
