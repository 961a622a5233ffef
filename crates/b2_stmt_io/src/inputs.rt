// INPUT: the parts of a line for its receivers; and how INPUT and LINPUT finish.
ghost use Rattle.std.specs.Prelude.{◌≡◌, ◌==◌, ◌||◌, true, IfOk, None, option_copied};
ghost use Rattle.b2_alpha.specs.Values.{value_of};
ghost use Rattle.b2_atom.specs.declared.rows.TheConstants as row;
ghost use Rattle.b2_rows.specs.Rows.{is_phrase, tree_at};
ghost use Rattle.b2_access.specs.Answering.{can_answer};
ghost use Rattle.b2_access.specs.Views.{line_came};
ghost use Rattle.b2_access.specs.Working.{ended};
ghost use Rattle.b2_expr.specs.Workspace.{SameReferences, workspace};
ghost use Rattle.b2_stmt_io.specs.Inputs as spec;
ghost use Rattle.b2_stmt_io.specs.LineReading.{asks_line, entered, prompt_of, unread};
ghost use Rattle.b2_rows.specs.CommaLists.{are_others, past_first, receivers_at};
ghost use Rattle.b2_stmt_io.specs.TypedText.{typed_parts};

use crate::line_reading::{ask_line, assign_line, past_prompt, prompt_shown, type_literal};
use crate::typed_text::{part_width, typed_number};
use b2_access::{Access, Answer, Outcome, Private};
use b2_alpha::value_len;
use b2_atom::rows;
use b2_base::lexical::{first_bytes, rest_after, skip_blanks};
use b2_base::{Code, NoMemory, Term};
use b2_expr::Workspace;
use b2_receiver::{assign_bytes_at, assign_number_at, past_any_receiver};
use b2_rows::{is_alpha_at, is_at};
use b2_text::Text;
use std::alloc::Global;

/// Bytes without the blanks after them, but for the first.
#[tactic(auto, using(crate::proofs::Parted::value_front))]
fn item_value(bytes: &[u8]) -> &[u8]
    ensures { result.now ≡ value_of bytes.now }
{
    first_bytes(bytes, value_len(bytes))
}

/// Assigns a part that isn't empty to the receiver at a text.
#[tactic(auto, using(crate::proofs::InputRows::alpha_here, crate::proofs::InputRows::alpha_is, crate::proofs::InputRows::number_here, crate::proofs::InputRows::number_is))]
fn some_to(work: &mut Workspace<'_>, part: &[u8], text: &[u8]) -> Result<Option<Code>, NoMemory>
    requires phrase { is_phrase row.RECEIVER text.now ≡ true }
    ensures worked { IfOk result (λ code. record { work = workspace work.new; code = code } ≡ spec.takes_some part.now (tree_at row.RECEIVER text.now) (workspace work.old)) }
    ensures same_references { SameReferences work.old work.new }
{
    if is_alpha_at(text) {
        assign_bytes_at(work, item_value(skip_blanks(part)), text)
    } else {
        assign_number_at(work, typed_number(part), text)
    }
}

/// Assigns a part to the receiver at a text, unless it is empty.
fn part_to(work: &mut Workspace<'_>, part: &[u8], text: &[u8]) -> Result<Option<Code>, NoMemory>
    requires phrase { is_phrase row.RECEIVER text.now ≡ true }
    ensures worked { IfOk result (λ code. record { work = workspace work.new; code = code } ≡ spec.takes_part (tree_at row.RECEIVER text.now) part.now (workspace work.old)) }
    ensures same_references { SameReferences work.old work.new }
{
    if skip_blanks(part).is_empty() {
        return Ok(None);
    }
    some_to(work, part, text)
}

/// Assigns the parts of a line to the receivers that stand at a text, from left to right.
#[tactic(auto, using(crate::proofs::Parted::part_more, crate::proofs::Parted::key_leads, b2_receiver::proofs::ReceiverLists::other_part, b2_receiver::proofs::ReceiverLists::other_list, b2_receiver::proofs::ReceiverLists::receiver_shorter))]
fn parts_to(work: &mut Workspace<'_>, line: &[u8], text: &[u8]) -> Result<Option<Code>, NoMemory>
    requires phrase { is_phrase row.RECEIVER text.now ≡ true }
    requires list { are_others (past_first text.now) ≡ true }
    ensures worked { IfOk result (λ code. record { work = workspace work.new; code = code } ≡ spec.take_parts spec.takes_part (receivers_at text.now) (typed_parts line.now) (workspace work.old)) }
    ensures same_references { SameReferences work.old work.new }
{
    let mut left = text;
    let mut typed = line;
    loop {
        let width = part_width(typed);
        let code = part_to(work, first_bytes(typed, width), left)?;
        if code.is_some() {
            return Ok(code);
        }
        left = past_any_receiver(left);
        if !is_at(b',', left) {
            return Ok(None);
        }
        typed = rest_after(typed, width);
        if typed.is_empty() {
            return Ok(None);
        }
        left = rest_after(left, 1);
        typed = rest_after(typed, 1);
    }
}

/// Assigns a line to the receivers of INPUT.
#[tactic(auto, using(crate::proofs::InputRows::input_prompt, crate::proofs::InputRows::input_receiver, crate::proofs::InputRows::input_list, crate::proofs::InputRows::input_is))]
fn take_parts(work: &mut Workspace<'_>, line: &[u8], unit: &[u8]) -> Result<Option<Code>, NoMemory>
    requires phrase { is_phrase row.INPUT unit.now ≡ true }
    ensures worked { IfOk result (λ code. record { work = workspace work.new; code = code } ≡ spec.takes_parts line.now (tree_at row.INPUT unit.now) (workspace work.old)) }
    ensures same_references { SameReferences work.old work.new }
{
    parts_to(work, line, past_prompt(rest_after(unit, 1)))
}

/// What INPUT asks for.
#[tactic(auto, using(crate::proofs::InputRows::input_prompt, crate::proofs::InputRows::input_shows))]
pub fn ask_input(
    alloc: Global,
    prompted: bool,
    column: u16,
    term: Term,
    unit: &[u8],
) -> Result<Access, NoMemory>
    requires phrase { is_phrase row.INPUT unit.now ≡ true }
    ensures { IfOk result (λ a. a ≡ asks_line prompted column term (prompt_of (tree_at row.INPUT unit.now))) }
{
    ask_line(alloc, prompted, column, term, rest_after(unit, 1))
}

/// Assigns a line to the receivers of a statement that read it, LINPUT or INPUT.
pub fn take_typed(
    work: &mut Workspace<'_>,
    kind: u16,
    line: &[u8],
    unit: &[u8],
) -> Result<Option<Code>, NoMemory>
    requires phrase { is_phrase kind unit.now ≡ true }
    requires reads { (kind == row.LINPUT || kind == row.INPUT) ≡ true }
    ensures worked { IfOk result (λ code. record { work = workspace work.new; code = code } ≡ spec.takes_typed kind line.now (tree_at kind unit.now) (workspace work.old)) }
    ensures same_references { SameReferences work.old work.new }
{
    if kind == rows::LINPUT {
        assign_line(work, line, unit)
    } else {
        take_parts(work, line, unit)
    }
}

/// The line that was entered, none where none was.
pub fn line_entered<'a>(access: &Access, answer: &'a Answer) -> Option<&'a [u8]>
    ensures { option_copied result ≡ entered (line_came access.now answer.now) }
{
    match access {
        Access::ReadLine { .. } => match answer {
            Answer::Line(line) => Some(line.bytes()),
            _ => None,
        },
        _ => None,
    }
}

/// How LINPUT and INPUT finish where no line was entered.
pub fn without_line(
    alloc: Global,
    me: &mut Private,
    own: &Text,
    access: &Access,
    answer: &Answer,
) -> Result<Outcome, NoMemory>
    requires none { entered (line_came access.now answer.now) ≡ None }
    requires possible { can_answer access.now answer.now ≡ true }
    ensures ended { IfOk result (λ o. record { me = me.new; outcome = o } ≡ ended me.old (unread (line_came access.now answer.now) own.now.lines me.old)) }
    ensures part { me.new.part ≡ me.old.part }
{
    match access {
        Access::Show { column, .. } => match answer {
            Answer::Done => Ok(prompt_shown(me, *column)),
            Answer::Wait(_) => Ok(Outcome::Repeat),
            _ => unreachable!(),
        },
        Access::ReadLine { .. } => match answer {
            Answer::Special(n) => type_literal(alloc, me, own, *n),
            Answer::NoKeys | Answer::Wait(_) => Ok(Outcome::Repeat),
            _ => unreachable!(),
        },
        _ => Ok(Outcome::Repeat),
    }
}
