// INPUT and LINPUT: a prompt, and then a line.
ghost use Rattle.std.specs.Prelude.{◌≡◌, true, IfOk};
ghost use Rattle.b2_base.specs.Byte as byte;
ghost use Rattle.b2_atom.specs.declared.rows.TheConstants as row;
ghost use Rattle.b2_atom.specs.declared.forms.Start.TheVariants as start;
ghost use Rattle.b2_rows.specs.Rows.{is_phrase, tree_at};
ghost use Rattle.b2_rows.specs.Optional.{maybe_phrase, maybe_tree, after_maybe};
ghost use Rattle.b2_expr.specs.Workspace.{SameReferences, workspace};
ghost use Rattle.b2_stmt_io.specs.LineReading as spec;
ghost use Rattle.b2_access.specs.KeyLiterals.{typed_by_mark};
ghost use Rattle.b2_access.specs.Working.{ended};

use crate::outlets::Outlet;
use b2_access::{Access, Outcome, Private, typed_by_mark};
use b2_atom::literal_width;
use b2_base::lexical::rest_after;
use b2_base::{ByteList, Code, NoMemory, Term};
use b2_expr::Workspace;
use b2_receiver::assign_bytes_at;
use b2_rows::{is_at, quoted_at};
use b2_text::Text;
use std::alloc::Global;

/// The text of the prompt at a text, no bytes where none stands there.
#[tactic(auto, using(crate::proofs::PromptRows::prompt_here, crate::proofs::PromptRows::prompt_with, crate::proofs::PromptRows::prompt_without))]
fn prompt_at(text: &[u8]) -> &[u8]
    requires phrase { maybe_phrase (start.Code byte.quote) row.PROMPT text.now ≡ true }
    ensures { result.now ≡ spec.prompt_there (maybe_tree (start.Code byte.quote) row.PROMPT text.now) }
{
    if is_at(b'"', text) {
        quoted_at(text)
    } else {
        &[]
    }
}

/// What stands after the prompt at a text, or after none.
#[tactic(auto, using(crate::proofs::PromptRows::rest_with, crate::proofs::PromptRows::rest_without))]
pub fn past_prompt(text: &[u8]) -> &[u8]
    requires phrase { maybe_phrase (start.Code byte.quote) row.PROMPT text.now ≡ true }
    ensures { result.now ≡ after_maybe (start.Code byte.quote) row.PROMPT text.now }
{
    if is_at(b'"', text) {
        rest_after(rest_after(text, literal_width(text)), 1)
    } else {
        text
    }
}

/// The prompt at a text is shown at the terminal, or a line is read where it was.
pub fn ask_line(
    alloc: Global,
    prompted: bool,
    column: u16,
    term: Term,
    text: &[u8],
) -> Result<Access, NoMemory>
    requires phrase { maybe_phrase (start.Code byte.quote) row.PROMPT text.now ≡ true }
    ensures { IfOk result (λ a. a ≡ spec.asks_line prompted column term (spec.prompt_there (maybe_tree (start.Code byte.quote) row.PROMPT text.now))) }
{
    if prompted {
        return Ok(Access::ReadLine { term });
    }
    let mut shown = Vec::from_slice(alloc, prompt_at(text))?;
    shown.extend_from_slice(b"? ")?;
    let terminal = Outlet::Terminal { term, column };
    Ok(terminal.show_from(ByteList::new(shown)))
}

/// What LINPUT asks for.
#[tactic(auto, using(crate::proofs::PromptRows::linput_prompt, crate::proofs::PromptRows::linput_shows))]
pub fn ask_linput(
    alloc: Global,
    prompted: bool,
    column: u16,
    term: Term,
    unit: &[u8],
) -> Result<Access, NoMemory>
    requires phrase { is_phrase row.LINPUT unit.now ≡ true }
    ensures { IfOk result (λ a. a ≡ spec.asks_line prompted column term (spec.prompt_of (tree_at row.LINPUT unit.now))) }
{
    ask_line(alloc, prompted, column, term, rest_after(unit, 1))
}

/// Assigns a line to the receiver of LINPUT.
#[tactic(auto, using(crate::proofs::PromptRows::linput_prompt, crate::proofs::PromptRows::linput_receiver, crate::proofs::PromptRows::linput_to))]
pub fn assign_line(
    work: &mut Workspace<'_>,
    line: &[u8],
    unit: &[u8],
) -> Result<Option<Code>, NoMemory>
    requires phrase { is_phrase row.LINPUT unit.now ≡ true }
    ensures worked { IfOk result (λ code. record { work = workspace work.new; code = code } ≡ spec.takes_line line.now (tree_at row.LINPUT unit.now) (workspace work.old)) }
    ensures same_references { SameReferences work.old work.new }
{
    assign_bytes_at(work, line, past_prompt(rest_after(unit, 1)))
}

/// After the prompt was shown, with the terminal at this column.
pub fn prompt_shown(me: &mut Private, column: u16) -> Outcome
    ensures ended { record { me = me.new; outcome = result } ≡ ended me.old (spec.prompted column me.old) }
    ensures part { me.new.part ≡ me.old.part }
{
    me.term_column = column;
    me.prompted = true;
    Outcome::Repeat
}

/// Has a special function key type its literal, where it has one.
pub fn type_literal(alloc: Global, me: &mut Private, own: &Text, n: u8) -> Result<Outcome, NoMemory>
    ensures ended { IfOk result (λ o. record { me = me.new; outcome = o } ≡ ended me.old (spec.types (typed_by_mark n own.now.lines) me.old)) }
    ensures part { me.new.part ≡ me.old.part }
{
    if let Some(text) = typed_by_mark(own, n) {
        me.literal = Some(ByteList::from_slice(alloc, text)?);
    }
    Ok(Outcome::Repeat)
}
