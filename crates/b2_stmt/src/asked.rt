// What statements ask of the private state, and what becomes of it.
ghost use Rattle.std.specs.Prelude.{◌≡◌, ◌<◌, true, IfOk};
ghost use Rattle.b2_atom.specs.declared.rows.TheConstants as row;
ghost use Rattle.b2_rows.specs.Following.{tree_units};
ghost use Rattle.b2_rows.specs.Laws.{IsRow};
ghost use Rattle.b2_rows.specs.Rows.{is_phrase, tree_at};
ghost use Rattle.b2_expr.specs.Value.{context_of};
ghost use Rattle.b2_stmt.specs.Arguments.{arguments, operands_of};
ghost use Rattle.b2_stmt.specs.Marked.{number_called as called_number};
ghost use Rattle.b2_expr.specs.Workspace.{workspace};
ghost use Rattle.b2_stmt.specs.Branches.{if_goal as if_goal_of};
ghost use Rattle.b2_stmt.specs.Breaks.{turns_to_pass as turns_of_break};
ghost use Rattle.b2_access.specs.Jumps.{to_found};
ghost use Rattle.b2_stmt.specs.Loops.{loop_in};
ghost use Rattle.b2_stmt.specs.RunControl.{stop_text as shown_by_stop, text_of_stop};
ghost use Rattle.b2_stmt.specs.Asked as spec;
ghost use Rattle.b2_stmt.specs.Asked.{HasLegalNames};
ghost use Rattle.b2_access.specs.Steering.{steered};

use crate::arguments::arguments_of;
use crate::branches::{goto_goal, if_goal, skipped_function, skipped_goal};
use crate::breaks::{pass_turns, turns_to_pass};
use crate::calls::{call_line, forget, go_back, has_all, line_called};
use crate::choices::{calls_a_line, choice_at};
use crate::loops::{Loop, begin_loop, counter_at, loop_at, next_round};
use crate::marked::{call_mark, number_called};
use crate::run_control::{line_to_run, resume, run_program, select, stop, stop_text, text_of_stop};
use b2_access::{Outcome, Private, failed, failing, place_after, to_found, to_goal, to_line};
use b2_atom::{LentAtoms, rows};
use b2_base::codes::{D87_FILE_NAME, S26_PROGRAM_ONLY, S27_LEFT_OUT};
use b2_base::{ByteList, NoMemory};
use b2_dec::{Mode, ValueList};
use b2_expr::{Workspace, surroundings_of};
use b2_flow::{Place, Var2};
use b2_rows::{Goal, RowUnit};
use b2_text::Text;
use std::alloc::Global;

/// What a statement asks of the private state, once its bytes were looked at.
#[derive(Drop)]
pub enum Asked {
    /// Nothing: it has ended.
    Nothing(Outcome),
    /// A loop whose body stands at a place.
    Begin(Loop, Place),
    /// The next round of the loop of a variable.
    Next(Var2),
    /// A call of a line, which leads back to a place.
    Call(u16, Option<Place>),
    /// The place that the nearest call leads back to.
    Return,
    /// That the nearest call is forgotten, or all of them.
    Forget(bool),
    /// That the program stops: what it shows, and the place after it.
    Stop(ByteList, Option<Place>),
    /// How results become numbers.
    Select(Mode),
    /// That the program begins anew, at its first line or at another.
    Run(Option<u16>),
    /// The place that is kept.
    Continue,
    /// A call of the DEFFN' of a number, which passes values and leads back to a place.
    CallMark(u8, ValueList, Option<Place>),
    /// That the turn ends, and so many of the next are passed.
    Pass(u8),
}

/// The place of a loop's body, which stands after the FOR also where no unit follows.
fn body_place(home: &Text, line: &LentAtoms<'_>, place: Place) -> Place
    requires { place.unit < 255 }
    ensures { result ≡ spec.body_place (record { place = place; units = tree_units line.now }) home.now.lines }
{
    let (part, number, unit) = (place.home, place.line, place.unit + 1);
    match place_after(home, line, place) {
        Some(body) => body,
        None => Place {
            home: part,
            line: number,
            unit,
        },
    }
}

/// What FOR asks for.
fn ask_loop(work: &Workspace<'_>, unit: &[u8], body: Place) -> Asked
    requires phrase { is_phrase row.FOR unit.now ≡ true }
    ensures asked { result ≡ spec.asks_loop (loop_in (context_of (workspace work.now)) (tree_at row.FOR unit.now)) body }
    ensures named { HasLegalNames result }
{
    let e = surroundings_of(work);
    match loop_at(&e, unit) {
        Ok(l) => Asked::Begin(l, body),
        Err(code) => Asked::Nothing(Outcome::Failed(code)),
    }
}

/// What ON asks for, by the line that was chosen.
fn line_chosen(
    goto: bool,
    line: Option<u16>,
    home: &Text,
    atoms: &LentAtoms<'_>,
    place: Place,
) -> Asked
    requires few { place.unit < 255 }
    ensures asked { result ≡ spec.line_chosen goto line (record { place = place; units = tree_units atoms.now }) home.now.lines }
    ensures named { HasLegalNames result }
{
    match (goto, line) {
        (_, None) => Asked::Nothing(Outcome::Next),
        (true, Some(n)) => Asked::Nothing(to_line(home, place, n)),
        (false, Some(n)) => Asked::Call(n, place_after(home, atoms, place)),
    }
}

/// What ON asks for.
fn ask_choice(work: &Workspace<'_>, line: &LentAtoms<'_>, place: Place, unit: &[u8]) -> Asked
    requires phrase { is_phrase row.ON unit.now ≡ true }
    requires few { place.unit < 255 }
    ensures asked { result ≡ spec.asks_on (tree_at row.ON unit.now) (record { place = place; units = tree_units line.now }) (context_of (workspace work.now)) work.now.home.now.lines }
    ensures named { HasLegalNames result }
{
    if place.line.is_none() && calls_a_line(unit) {
        return Asked::Nothing(failed(S26_PROGRAM_ONLY));
    }
    let e = surroundings_of(work);
    match choice_at(&e, unit) {
        Ok((goto, n)) => line_chosen(goto, n, work.home, line, place),
        Err(code) => Asked::Nothing(Outcome::Failed(code)),
    }
}

/// How IF ends.
fn if_outcome(work: &Workspace<'_>, line: &LentAtoms<'_>, place: Place, unit: &[u8]) -> Outcome
    requires phrase { is_phrase row.IF unit.now ≡ true }
    requires few { place.unit < 255 }
    ensures { result ≡ to_found work.now.home.now.lines place (if_goal_of (context_of (workspace work.now)) place.unit (tree_units line.now) (tree_at row.IF unit.now)) }
{
    // Taken apart and made again, since the proof of a body wants to meet each type that it lends.
    let Place {
        home: part,
        line: number,
        unit: k,
    } = place;
    let found = if_goal(&surroundings_of(work), line, usize::from(k), unit);
    let place = Place {
        home: part,
        line: number,
        unit: k,
    };
    to_found(work.home, place, found)
}

/// How a statement ends that changes nothing.
pub fn still(
    work: &Workspace<'_>,
    line: &LentAtoms<'_>,
    place: Place,
    row: u16,
    unit: &[u8],
) -> Outcome
    requires phrase { is_phrase row unit.now ≡ true }
    requires few { place.unit < 255 }
    ensures { result ≡ spec.still row (tree_at row unit.now) (record { place = place; units = tree_units line.now }) (context_of (workspace work.now)) work.now.home.now.lines }
{
    let k = usize::from(place.unit);
    match row {
        rows::IF => if_outcome(work, line, place, unit),
        rows::GOTO => to_goal(work.home, place, goto_goal(unit)),
        rows::ELSE => to_goal(work.home, place, skipped_goal(line, k)),
        rows::ERROR => to_goal(work.home, place, Goal::NextLine),
        rows::END => Outcome::Ready,
        rows::REMARK | rows::IMAGE_LINE | rows::DATA => Outcome::Next,
        rows::DEFFN => skipped_function(unit),
        rows::SELECT_PART => failed(D87_FILE_NAME),
        _ => failed(S27_LEFT_OUT),
    }
}

/// What STOP asks for.
fn ask_stop(alloc: Global, unit: &[u8], after: Option<Place>) -> Result<Asked, NoMemory>
    requires phrase { is_phrase row.STOP unit.now ≡ true }
    ensures { IfOk result (λ asked. asked ≡ Asked.Stop (shown_by_stop (text_of_stop (tree_at row.STOP unit.now))) after) }
{
    let shown = stop_text(alloc, text_of_stop(unit))?;
    Ok(Asked::Stop(shown, after))
}

/// What GOSUB' asks for.
fn ask_mark(
    alloc: Global,
    work: &Workspace<'_>,
    unit: &[u8],
    back: Option<Place>,
) -> Result<Asked, NoMemory>
    requires phrase { is_phrase row.GOSUB_MARKED unit.now ≡ true }
    ensures asked { IfOk result (λ asked. asked ≡ spec.asks_mark (called_number (tree_at row.GOSUB_MARKED unit.now)) (arguments (context_of (workspace work.now)) (operands_of (tree_at row.GOSUB_MARKED unit.now))) back) }
    ensures named { IfOk result HasLegalNames }
{
    let e = surroundings_of(work);
    match arguments_of(alloc, &e, unit) {
        Ok(args) => Ok(Asked::CallMark(number_called(unit), args, back)),
        Err(fault) => {
            let outcome = failing(fault)?;
            Ok(Asked::Nothing(outcome))
        }
    }
}

/// What $BREAK asks for.
fn ask_pass(work: &Workspace<'_>, unit: &[u8]) -> Asked
    requires phrase { is_phrase row.BREAK unit.now ≡ true }
    ensures asked { result ≡ spec.asks_pass (turns_of_break (context_of (workspace work.now)) (tree_at row.BREAK unit.now)) }
    ensures named { HasLegalNames result }
{
    let e = surroundings_of(work);
    match turns_to_pass(&e, unit) {
        Ok(turns) => Asked::Pass(turns),
        Err(code) => Asked::Nothing(Outcome::Failed(code)),
    }
}

/// The same place.
fn copy_of(place: &Place) -> Place
    ensures { result ≡ place.now }
{
    Place {
        home: place.home,
        line: place.line,
        unit: place.unit,
    }
}

/// What the statement of a row asks for.
pub fn ask(
    alloc: Global,
    work: &Workspace<'_>,
    line: &LentAtoms<'_>,
    place: &Place,
    unit: &RowUnit<'_>,
) -> Result<Asked, NoMemory>
    requires read { IsRow unit.now.row unit.now.bytes.now (tree_at unit.now.row unit.now.bytes.now) }
    requires few { place.now.unit < 255 }
    ensures asked { IfOk result (λ asked. asked ≡ spec.asked_of unit.now.row (tree_at unit.now.row unit.now.bytes.now) (record { place = place.now; units = tree_units line.now }) (context_of (workspace work.now)) work.now.home.now.lines) }
    ensures named { IfOk result HasLegalNames }
{
    let bytes = unit.bytes;
    let place = copy_of(place);
    match unit.row {
        rows::FOR => Ok(ask_loop(work, bytes, body_place(work.home, line, place))),
        rows::NEXT => Ok(Asked::Next(counter_at(bytes))),
        rows::GOSUB => Ok(Asked::Call(line_called(bytes), place_after(work.home, line, place))),
        rows::RETURN => Ok(Asked::Return),
        rows::RETURN_CLEAR => Ok(Asked::Forget(has_all(bytes))),
        rows::STOP => ask_stop(alloc, bytes, place_after(work.home, line, place)),
        rows::SELECT => Ok(Asked::Select(Mode::Round)),
        rows::SELECT_NO_ROUND => Ok(Asked::Select(Mode::Cut)),
        rows::RUN => Ok(Asked::Run(line_to_run(bytes))),
        rows::CONTINUE => Ok(Asked::Continue),
        rows::GOSUB_MARKED => ask_mark(alloc, work, bytes, place_after(work.home, line, place)),
        rows::ON => Ok(ask_choice(work, line, place, bytes)),
        rows::BREAK => Ok(ask_pass(work, bytes)),
        _ => Ok(Asked::Nothing(failed(S27_LEFT_OUT))),
    }
}

/// Does what was asked for.
pub fn do_asked(
    me: &mut Private,
    own: &Text,
    home: &Text,
    place: Place,
    asked: Asked,
) -> Result<Outcome, NoMemory>
    requires named { HasLegalNames asked }
    ensures ended { IfOk result (λ o. record { me = me.new; outcome = o } ≡ steered me.old (spec.carried asked place me.old own.now.lines home.now.lines)) }
    ensures part { me.new.part ≡ me.old.part }
{
    match asked {
        Asked::Nothing(outcome) => Ok(outcome),
        Asked::Begin(l, body) => begin_loop(me, l, body),
        Asked::Next(v) => next_round(me, v),
        Asked::Call(n, back) => Ok(call_line(me, home, place, n, back)),
        Asked::Return => Ok(go_back(me)),
        Asked::Forget(all) => Ok(forget(me, place, all)),
        Asked::Stop(shown, after) => Ok(stop(me, shown, place, after)),
        Asked::Select(mode) => Ok(select(me, mode)),
        Asked::Run(n) => Ok(run_program(me, own, n)),
        Asked::Continue => Ok(resume(me)),
        Asked::CallMark(n, args, back) => Ok(call_mark(me, own, home, place, n, args, back)),
        Asked::Pass(turns) => Ok(pass_turns(me, turns)),
    }
}
