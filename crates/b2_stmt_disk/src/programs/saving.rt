// SAVE: what it asks for.
ghost use Rattle.std.specs.Prelude.{◌≡◌, true};
ghost use Rattle.b2_base.specs.Byte as byte;
ghost use Rattle.b2_atom.specs.declared.forms.Start.TheVariants as start;
ghost use Rattle.b2_atom.specs.declared.rows.TheConstants as row;
ghost use Rattle.b2_rows.specs.Optional.{after_maybe, maybe_phrase, maybe_tree};
ghost use Rattle.b2_rows.specs.Rows.{is_phrase, tree_at};
ghost use Rattle.b2_expr.specs.Scope.{surroundings};
ghost use Rattle.b2_expr.specs.Value.{in_statement};
ghost use Rattle.b2_drive.specs.Drives.{drives_seen};
ghost use Rattle.b2_stmt_disk.specs.programs.Saving as spec;

use b2_access::Access;
use b2_base::lexical::rest_after;
use b2_base::{Code, Name8};
use b2_drive::{Drives, drive, name_at, past_drive};
use b2_expr::{Env, past_alpha};
use b2_rows::{is_at, line_at};

/// The name of a scratched file, where one is written in parentheses at a text.
#[tactic(auto, using(crate::proofs::of_programs::SaveRows::old_here, crate::proofs::of_programs::SaveRows::old_is, crate::proofs::of_programs::SaveRows::no_old))]
fn old_at(e: &Env<'_>, text: &[u8]) -> Result<Option<Name8>, Code>
    requires phrase { maybe_phrase (start.Code byte.opening) row.SCRATCHED_AND_COMMA text.now ≡ true }
    ensures { result ≡ spec.old_named (in_statement (surroundings e.now)) (maybe_tree (start.Code byte.opening) row.SCRATCHED_AND_COMMA text.now) }
{
    if !is_at(b'(', text) {
        return Ok(None);
    }
    match name_at(e, rest_after(text, 1)) {
        Ok(name) => Ok(Some(name)),
        Err(code) => Err(code),
    }
}

/// What stands after the name of a scratched file and its comma, where one is written.
#[tactic(auto, using(crate::proofs::of_programs::SaveRows::old_here, crate::proofs::of_programs::SaveRows::after_old, crate::proofs::of_programs::SaveRows::after_none))]
fn past_old(text: &[u8]) -> &[u8]
    requires phrase { maybe_phrase (start.Code byte.opening) row.SCRATCHED_AND_COMMA text.now ≡ true }
    ensures { result.now ≡ after_maybe (start.Code byte.opening) row.SCRATCHED_AND_COMMA text.now }
{
    if !is_at(b'(', text) {
        return text;
    }
    rest_after(rest_after(past_alpha(rest_after(text, 1)), 1), 1)
}

/// The first and the last of the lines that are named after a comma, or of all lines.
#[tactic(auto, using(crate::proofs::of_programs::SaveRows::first_here, crate::proofs::of_programs::SaveRows::second_here, crate::proofs::of_programs::SaveRows::two_lines, crate::proofs::of_programs::SaveRows::one_line, crate::proofs::of_programs::SaveRows::all_lines))]
fn lines_at(text: &[u8]) -> (u16, u16)
    requires phrase { maybe_phrase (start.Code byte.comma) row.COMMA_LINES text.now ≡ true }
    ensures { result ≡ spec.lines_saved (maybe_tree (start.Code byte.comma) row.COMMA_LINES text.now) }
{
    if !is_at(b',', text) {
        return (0, 9999);
    }
    let line = rest_after(text, 1);
    let from = line_at(line);
    let after = rest_after(line, 3);
    if is_at(b',', after) {
        (from, line_at(rest_after(after, 1)))
    } else {
        (from, 9999)
    }
}

/// What SAVE asks for: its drive first, then the name of a scratched file, where one is written, and then the name.
#[tactic(auto, using(crate::proofs::of_programs::SaveRows::save_drive, crate::proofs::of_programs::SaveRows::save_old, crate::proofs::of_programs::SaveRows::save_name, crate::proofs::of_programs::SaveRows::save_lines, crate::proofs::of_programs::SaveRows::save_is))]
pub fn ask_to_save(d: &Drives<'_>, e: &Env<'_>, unit: &[u8]) -> Result<Access, Code>
    requires phrase { is_phrase row.SAVE unit.now ≡ true }
    ensures { result ≡ spec.asks_to_save (drives_seen d.now) (in_statement (surroundings e.now)) (tree_at row.SAVE unit.now) }
{
    let text = rest_after(unit, 1);
    let addr = match drive(d, text) {
        Ok(addr) => addr,
        Err(code) => return Err(code),
    };
    let after = past_drive(text);
    let old = match old_at(e, after) {
        Ok(old) => old,
        Err(code) => return Err(code),
    };
    let named = past_old(after);
    match name_at(e, named) {
        Ok(name) => {
            let (from, to) = lines_at(past_alpha(named));
            Ok(Access::SaveProgram {
                addr,
                old,
                name,
                from,
                to,
            })
        }
        Err(code) => Err(code),
    }
}
