// KEYIN: one key, and where it leads.
ghost use Rattle.std.specs.Prelude.{◌≡◌, true, IfOk, drop};
ghost use Rattle.b2_access.specs.Answering.{can_answer};
ghost use Rattle.b2_access.specs.Views.{key_came};
ghost use Rattle.b2_base.specs.Byte as byte;
ghost use Rattle.b2_atom.specs.declared.rows.TheConstants as row;
ghost use Rattle.b2_atom.specs.declared.forms.Start.TheVariants as start;
ghost use Rattle.b2_rows.specs.Rows.{is_phrase, tree_at};
ghost use Rattle.b2_rows.specs.Optional.{maybe_phrase, maybe_tree};
ghost use Rattle.b2_expr.specs.Workspace.{SameReferences, workspace};
ghost use Rattle.b2_stmt_io.specs.Keys as spec;

use b2_access::{Access, Answer, Outcome, to_line};
use b2_base::lexical::rest_after;
use b2_base::{Code, NoMemory};
use b2_expr::Workspace;
use b2_flow::Place;
use b2_receiver::{assign_bytes_at, past_alpha_receiver};
use b2_rows::{is_at, line_at};
use b2_text::Text;

/// The second of two lines with commas before them.
fn other_named(text: &[u8]) -> &[u8]
    ensures { result.now ≡ drop 1 (drop 3 (drop 1 text.now)) }
{
    rest_after(rest_after(rest_after(text, 1), 3), 1)
}

/// Where KEYIN goes on after a key, by the lines that are named at a text.
#[tactic(auto, using(crate::proofs::KeyRows::first_here, crate::proofs::KeyRows::to_next))]
fn key_leads(special: bool, home: &Text, place: Place, text: &[u8]) -> Outcome
    requires phrase { maybe_phrase (start.Code byte.comma) row.COMMA_TWO_LINES text.now ≡ true }
    ensures { result ≡ spec.key_leads special home.now.lines place (maybe_tree (start.Code byte.comma) row.COMMA_TWO_LINES text.now) }
{
    if !is_at(b',', text) {
        return Outcome::Next;
    }
    if special {
        to_line(home, place, line_at(other_named(text)))
    } else {
        to_line(home, place, line_at(rest_after(text, 1)))
    }
}

/// Assigns a key to the receiver of KEYIN. The code with which that ended, or none.
#[tactic(auto, using(crate::proofs::KeyRows::key_receiver, crate::proofs::KeyRows::assigns_key_is))]
pub fn assign_key(work: &mut Workspace<'_>, key: u8, unit: &[u8]) -> Result<Option<Code>, NoMemory>
    requires phrase { is_phrase row.KEYIN unit.now ≡ true }
    ensures worked { IfOk result (λ code. record { work = workspace work.new; code = code } ≡ spec.assigns_key key (tree_at row.KEYIN unit.now) (workspace work.old)) }
    ensures same_references { SameReferences work.old work.new }
{
    assign_bytes_at(work, &[key], rest_after(unit, 1))
}

/// The key that came as one byte, a special function key by its number; none where none came.
pub fn key_byte(access: &Access, answer: &Answer) -> Option<u8>
    requires possible { can_answer access.now answer.now ≡ true }
    ensures { result ≡ spec.key_byte (key_came access.now answer.now) }
{
    let Access::Key { .. } = access else {
        return None;
    };
    match answer {
        Answer::Key(key) => Some(*key),
        Answer::Special(n) => Some(*n),
        Answer::NoKeys | Answer::Wait(_) => None,
        _ => unreachable!(),
    }
}

/// Where KEYIN goes on without a key, by the lines that are named at a text.
#[tactic(auto, using(crate::proofs::KeyRows::waits_is))]
fn without_key(text: &[u8]) -> Outcome
    requires phrase { maybe_phrase (start.Code byte.comma) row.COMMA_TWO_LINES text.now ≡ true }
    ensures { result ≡ spec.waits (maybe_tree (start.Code byte.comma) row.COMMA_TWO_LINES text.now) }
{
    if is_at(b',', text) {
        Outcome::Next
    } else {
        Outcome::Repeat
    }
}

/// Where KEYIN goes on, by the key that came.
#[tactic(auto, using(crate::proofs::KeyRows::key_receiver, crate::proofs::KeyRows::key_lines, crate::proofs::KeyRows::lines_are))]
pub fn after_key(
    home: &Text,
    place: Place,
    access: &Access,
    answer: &Answer,
    unit: &[u8],
) -> Outcome
    requires phrase { is_phrase row.KEYIN unit.now ≡ true }
    requires possible { can_answer access.now answer.now ≡ true }
    ensures { result ≡ spec.key_goes (key_came access.now answer.now) home.now.lines place (tree_at row.KEYIN unit.now) }
{
    let Access::Key { .. } = access else {
        return Outcome::Repeat;
    };
    let lines = past_alpha_receiver(rest_after(unit, 1));
    match answer {
        Answer::Key(_) => key_leads(false, home, place, lines),
        Answer::Special(_) => key_leads(true, home, place, lines),
        Answer::NoKeys => without_key(lines),
        Answer::Wait(_) => Outcome::Repeat,
        _ => unreachable!(),
    }
}
