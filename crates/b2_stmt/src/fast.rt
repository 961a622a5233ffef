// Statements of control that are done fast.
ghost use Rattle.std.specs.Prelude.{◌≡◌, ◌<◌, ◌≤◌, ◌+◌, [], ◌∷◌, true, false, IfOk, None, Some, is_some, get_or, length, if◌then◌else◌};
ghost use Rattle.std.specs.List.{slice_get};
ghost use Rattle.std.specs.Option.{option_map_or};
ghost use Rattle.b2_atom.specs.Grammar.{starts};
ghost use Rattle.b2_atom.specs.declared.forms.Leaf.TheVariants as leaf;
ghost use Rattle.b2_atom.specs.declared.forms.Start.TheVariants as start;
ghost use Rattle.b2_atom.specs.declared.rows.TheConstants as row;
ghost use Rattle.b2_atom.specs.declared.words.Origin.TheVariants.{Atoms};
ghost use Rattle.b2_rows.specs.Following.{after_false, past_colon, tree_units};
ghost use Rattle.b2_rows.specs.Leaves.{is_leaf};
ghost use Rattle.b2_rows.specs.Rows.{is_phrase, tree_at};
ghost use Rattle.b2_rows.specs.Values.{line_of};
ghost use Rattle.b2_text.specs.Program.{line_at as line_there};
ghost use Rattle.b2_dec.specs.declared.values.Value.TheVariants.{Number};
ghost use Rattle.b2_vars.specs.Globals.{unreached};
ghost use Rattle.b2_vars.specs.Names.{is_legal_name};
ghost use Rattle.b2_flow.specs.Stacks.{entered_last, most_frames, without_top_loop};
ghost use Rattle.b2_flow.specs.Frames.{is_loop_of};
ghost use Rattle.b2_expr.specs.Named.{number_there};
ghost use Rattle.b2_expr.specs.Scope.{surroundings};
ghost use Rattle.b2_expr.specs.Workspace.{surroundings_of as around};
ghost use Rattle.b2_receiver.specs.Assigning.{assigned_number};
ghost use Rattle.b2_access.specs.Found.{IsRead, here_found};
ghost use Rattle.b2_access.specs.Jumps.{to_found, to_goal, to_line};
ghost use Rattle.b2_access.specs.JumpTargets.{lead_seen};
ghost use Rattle.b2_access.specs.Fast.{DoneFast, place_following};
ghost use Rattle.b2_access.specs.Places.{IsUnit, line_start};
ghost use Rattle.b2_access.specs.declared.planned.Outcome.TheVariants as outcome;
ghost use Rattle.b2_stmt.specs.Arguments.{GivesValues, arguments, operands_of};
ghost use Rattle.b2_stmt.specs.Asked.{asks_loop, body_place, carried};
ghost use Rattle.b2_stmt.specs.Borrowing.{asks_of_others};
ghost use Rattle.b2_stmt.specs.Branches.{goto_goal, if_goal, skipped_function};
ghost use Rattle.b2_stmt.specs.Calls.{called_where, goes_back, line_called as called_line};
ghost use Rattle.b2_stmt.specs.Loops as loops;
ghost use Rattle.b2_stmt.specs.Parts.{declared_by};
ghost use Rattle.b2_stmt.specs.Fast as spec;
ghost use Rattle.b2_stmt.specs.Plan.{is_built};

use crate::arguments::{arguments_of, past_number};
use crate::branches::{false_goal, skipped_goal};
use crate::calls::line_called;
use crate::loops::{Loop, counter_at, drop_loop, frame_of, is_over, loop_at};
use crate::marked::number_called;
use b2_access::{Found, Lead, Private, lead_on, lead_to_goal, setting_of};
use b2_atom::rows;
use b2_atom::words::GLOBAL_PART;
use b2_base::codes::P35_ARGUMENTS;
use b2_base::lexical::{at, first, is_letter, rest_after};
use b2_base::{Code, Fault, Part};
use b2_dec::{Dec, Mode, NumberOrCode, Value, ValueList, sum_or_code};
use b2_expr::{Env, after_condition, condition_at, counted_digit, plain_width};
use b2_flow::{Frame, Place, Stack, Var2};
use b2_rows::{Goal, is_at, is_line_at, line_at};
use b2_text::Text;
use b2_vars::{Setting, Vars};

/// To the first unit of a line, where it is there.
#[inline(always)]
fn lead_to_line(found: &Found<'_>, n: u16) -> Lead
    ensures { spec.LeadsBy (lead_seen result) found.now (to_line found.now.home.now.lines found.now.place n) }
{
    if found.home.line(n).is_none() {
        return Lead::none();
    }
    Lead::to(n, 0)
}

/// To a goal on the line of a statement, where it is there.
#[tactic(auto, using(crate::proofs::Led::unit_led, crate::proofs::Led::next_line_led))]
#[inline(always)]
fn lead_there(found: &Found<'_>, goal: Goal) -> Lead
    requires unit { IsUnit goal }
    ensures { spec.LeadsBy (lead_seen result) found.now (to_goal found.now.home.now.lines found.now.place goal) }
{
    match goal {
        Goal::Line(n) => lead_to_line(found, n),
        Goal::Unit(_) => lead_to_goal(found, goal),
        Goal::NextLine => lead_to_goal(found, goal),
    }
}

/// To a place in the program at a home.
#[inline(always)]
#[tactic(auto, using(crate::proofs::Led::place_in_line))]
fn lead_into(home: Part, place: Place) -> Lead
    ensures { spec.IsPlaceLed (lead_seen result) home place }
{
    if place.home != home {
        return Lead::none();
    }
    match place.line {
        Some(n) => Lead::to(n, place.unit),
        None => Lead::none(),
    }
}

/// GOTO.
#[tactic(auto, using(crate::proofs::BranchRows::goto_line, crate::proofs::BranchRows::goto_is))]
#[inline(always)]
fn fast_goto(found: &Found<'_>) -> Lead
    requires phrase { is_phrase row.GOTO found.now.unit.now.bytes.now ≡ true }
    ensures { spec.LeadsBy (lead_seen result) found.now (to_found found.now.home.now.lines found.now.place (goto_goal (tree_at row.GOTO found.now.unit.now.bytes.now))) }
{
    lead_to_line(found, line_at(rest_after(found.unit.bytes, 1)))
}

/// To the line that is named at a text, or to the next unit.
#[inline(always)]
fn lead_to_named(found: &Found<'_>, text: &[u8]) -> Lead
    requires line { starts Atoms start.Line text.now ≡ true → is_leaf leaf.LineNumber text.now ≡ true }
    requires few { found.now.place.unit < 255 }
    ensures { spec.LeadsBy (lead_seen result) found.now (to_goal found.now.home.now.lines found.now.place (if starts Atoms start.Line text.now then Goal.Line (line_of (get_or text.now 1 0) (get_or text.now 2 0)) else Goal.Unit (found.now.place.unit + 1))) }
{
    if is_line_at(text) {
        return lead_to_line(found, line_at(text));
    }
    lead_there(found, Goal::Unit(usize::from(found.place.unit) + 1))
}

/// Where a false IF leads.
#[inline(always)]
fn lead_past(found: &Found<'_>) -> Lead
    ensures { spec.LeadsBy (lead_seen result) found.now (to_goal found.now.home.now.lines found.now.place (after_false found.now.place.unit (tree_units found.now.line.now))) }
{
    lead_there(found, false_goal(found.line, usize::from(found.place.unit)))
}

/// What the expressions of a statement look at, where no `@` variables are lent.
#[inline(always)]
fn surroundings_here<'a>(own: &'a Vars, home: &'a Text, setting: Setting) -> Env<'a>
    ensures { surroundings result ≡ around (record { own = own.now; globals = unreached None; setting = setting; home = home.now }) }
{
    Env {
        own,
        globals: None,
        home,
        mode: setting.mode,
        err: setting.last,
        part: setting.part,
        term: setting.term,
    }
}

/// IF.
#[tactic(auto, using(crate::proofs::BranchRows::if_condition, crate::proofs::BranchRows::if_named, crate::proofs::BranchRows::if_is))]
#[inline(always)]
fn fast_if(me: &mut Private, found: &Found<'_>) -> Lead
    requires phrase { is_phrase row.IF found.now.unit.now.bytes.now ≡ true }
    requires few { found.now.place.unit < 255 }
    ensures leads { spec.LeadsBy (lead_seen result) found.now (to_found found.now.home.now.lines found.now.place (if_goal (spec.around_fast found.now me.old) found.now.place.unit (tree_units found.now.line.now) (tree_at row.IF found.now.unit.now.bytes.now))) }
    ensures me { me.new ≡ me.old }
{
    let e = surroundings_here(&me.vars, found.home, setting_of(me));
    let text = rest_after(found.unit.bytes, 1);
    let judged = condition_at(text, &e);
    if judged.is_code() {
        return Lead::none();
    }
    if !judged.holds() {
        return lead_past(found);
    }
    lead_to_named(found, rest_after(after_condition(text, judged.left), 1))
}

/// ELSE that is reached in order.
#[inline(always)]
fn fast_else(found: &Found<'_>) -> Lead
    ensures { spec.LeadsBy (lead_seen result) found.now (to_goal found.now.home.now.lines found.now.place (past_colon found.now.place.unit (tree_units found.now.line.now))) }
{
    lead_there(
        found,
        skipped_goal(found.line, usize::from(found.place.unit)),
    )
}

/// Where a statement leads that does nothing.
#[inline(always)]
#[tactic(auto, using(crate::proofs::Led::next_led))]
fn lead_next(found: &Found<'_>) -> Lead
    requires few { found.now.place.unit < 255 }
    ensures { spec.LeadsBy (lead_seen result) found.now outcome.Next }
{
    lead_on(found)
}

/// DEFFN that is reached in order and declares no name.
#[tactic(auto, using(crate::proofs::PartRows::function_is, crate::proofs::BranchRows::skipped_is))]
#[inline(always)]
fn fast_function(found: &Found<'_>) -> Lead
    requires phrase { is_phrase row.DEFFN found.now.unit.now.bytes.now ≡ true }
    requires few { found.now.place.unit < 255 }
    ensures leads { spec.LeadsBy (lead_seen result) found.now (skipped_function (tree_at row.DEFFN found.now.unit.now.bytes.now)) }
    ensures declares { is_some (lead_seen result) ≡ true → declared_by (tree_at row.DEFFN found.now.unit.now.bytes.now) ≡ None }
{
    if is_at(GLOBAL_PART, rest_after(found.unit.bytes, 1)) {
        return Lead::none();
    }
    lead_next(found)
}

/// GOSUB.
#[inline(always)]
fn fast_gosub(me: &mut Private, found: &Found<'_>) -> Lead
    requires phrase { is_phrase row.GOSUB found.now.unit.now.bytes.now ≡ true }
    requires few { found.now.place.unit < 255 }
    ensures fast { spec.Steers (lead_seen result) found.now me.old me.new (called_where (line_there (called_line (tree_at row.GOSUB found.now.unit.now.bytes.now)) found.now.home.now.lines) (line_start found.now.place (called_line (tree_at row.GOSUB found.now.unit.now.bytes.now))) (place_following found.now) me.old) }
    ensures undisturbed { me.new ≡ record me.old { vars = me.new.vars; stack = me.new.stack; args = me.new.args } }
{
    let on = lead_on(found);
    let to = lead_to_line(found, line_called(found.unit.bytes));
    if !on.is_done() {
        return Lead::none();
    }
    if !to.is_done() {
        return Lead::none();
    }
    let frame = Frame::Call {
        back: Some(on.place(found.place.home)),
        entered: None,
    };
    match me.stack.push(frame) {
        Ok(()) => to,
        Err(_) => Lead::none(),
    }
}

/// To the DEFFN' of a number in the text at home, where it has one.
#[inline(always)]
fn lead_to_mark(found: &Found<'_>, n: u8) -> Lead
    ensures { spec.IsMarkLed (lead_seen result) n found.now }
{
    match found.home.marked(n) {
        Some(spot) => Lead::to(spot.line, spot.unit),
        None => Lead::none(),
    }
}

/// The values that GOSUB' passes.
#[inline(always)]
fn values_passed(me: &mut Private, found: &Found<'_>) -> Result<ValueList, Fault>
    requires phrase { is_phrase row.GOSUB_MARKED found.now.unit.now.bytes.now ≡ true }
    ensures values { GivesValues (arguments (spec.around_fast found.now me.old) (operands_of (tree_at row.GOSUB_MARKED found.now.unit.now.bytes.now))) result }
    ensures me { me.new ≡ me.old }
{
    let alloc = me.stack.allocator();
    let e = surroundings_here(&me.vars, found.home, setting_of(me));
    arguments_of(alloc, &e, found.unit.bytes)
}

/// GOSUB' of a DEFFN' in the text at home.
#[inline(always)]
fn fast_gosub_marked(me: &mut Private, found: &Found<'_>) -> Lead
    requires phrase { is_phrase row.GOSUB_MARKED found.now.unit.now.bytes.now ≡ true }
    requires few { found.now.place.unit < 255 }
    ensures fast { spec.Steers (lead_seen result) found.now me.old me.new (spec.calls_marked found.now me.old) }
    ensures here { is_some (lead_seen result) ≡ true → asks_of_others (spec.asked_marked found.now me.old) found.now.place me.old found.now.own.now.lines found.now.home.now.lines ≡ None }
    ensures undisturbed { me.new ≡ record me.old { vars = me.new.vars; stack = me.new.stack; args = me.new.args } }
{
    let on = lead_on(found);
    let to = lead_to_mark(found, number_called(found.unit.bytes));
    if !on.is_done() {
        return Lead::none();
    }
    if !to.is_done() {
        return Lead::none();
    }
    if !me.stack.has_room() {
        return Lead::none();
    }
    match values_passed(me, found) {
        Ok(args) => {
            let frame = Frame::Call {
                back: Some(on.place(found.place.home)),
                entered: None,
            };
            put_with_room(&mut me.stack, frame);
            me.args = Some(args);
            to
        }
        Err(Fault::NoMemory) => Lead::no_memory(),
        Err(Fault::Code(_)) => Lead::none(),
    }
}

/// The number that is passed alone, or a code where none is.
fn number_alone(args: &Option<ValueList>) -> NumberOrCode
    ensures { IfOk result (λ x. args.now ≡ Some (Number x ∷ [])) }
{
    let none = NumberOrCode::code(Code::known(P35_ARGUMENTS));
    let Some(args) = args else {
        return none;
    };
    match args.values() {
        [Value::Number(x)] => NumberOrCode::number(*x),
        _ => none,
    }
}

/// DEFFN' takes the number that is passed alone, where it has one receiver and that is a scalar without `@`. Whether it did; else all is
/// as before.
#[inline(always)]
fn take_number(me: &mut Private, found: &Found<'_>) -> bool
    requires phrase { is_phrase row.DEFFN_MARKED found.now.unit.now.bytes.now ≡ true }
    ensures takes { spec.TakesOrNot found.now me.old me.new result }
    ensures undisturbed { me.new ≡ record me.old { vars = me.new.vars; stack = me.new.stack; args = me.new.args } }
{
    let text = past_number(found.unit.bytes);
    let name = rest_after(text, 1);
    let letter = first(name);
    if !is_at(b'(', text) || !is_letter(letter) || at(name, plain_width(name)) != b')' {
        return false;
    }
    let x = number_alone(&me.args);
    if x.is_code() {
        return false;
    }
    if !me
        .vars
        .set_scalar(letter, counted_digit(at(name, 1)), x.get())
    {
        return false;
    }
    me.args = None;
    true
}

/// DEFFN' that no call waits for, or that takes one number.
#[inline(always)]
fn fast_mark(me: &mut Private, found: &Found<'_>) -> Lead
    requires phrase { is_phrase row.DEFFN_MARKED found.now.unit.now.bytes.now ≡ true }
    requires few { found.now.place.unit < 255 }
    ensures fast { DoneFast (lead_seen result) found.now me.old me.new (spec.marked_fast found.now me.old) }
    ensures undisturbed { me.new ≡ record me.old { vars = me.new.vars; stack = me.new.stack; args = me.new.args } }
{
    let on = lead_on(found);
    if !on.is_done() {
        return Lead::none();
    }
    if me.args.is_none() {
        return on;
    }
    if take_number(me, found) {
        return on;
    }
    Lead::none()
}

/// Where the call on top leads back to.
fn lead_back(stack: &Stack, home: Part) -> Lead
    ensures { spec.LeadsBack (lead_seen result) home (slice_get stack.now 0) }
{
    let Some(frame) = stack.top() else {
        return Lead::none();
    };
    match *frame {
        Frame::Call {
            back: Some(back),
            entered: None,
        } => lead_into(home, back),
        _ => Lead::none(),
    }
}

/// RETURN from a call that stands on top and entered no text.
#[inline(always)]
fn fast_return(me: &mut Private, found: &Found<'_>) -> Lead
    ensures fast { spec.Steers (lead_seen result) found.now me.old me.new (goes_back me.old) }
    ensures entered { is_some (lead_seen result) ≡ true → entered_last me.old.stack ≡ None }
    ensures undisturbed { me.new ≡ record me.old { vars = me.new.vars; stack = me.new.stack; args = me.new.args } }
{
    let to = lead_back(&me.stack, found.place.home);
    if !to.is_done() {
        return Lead::none();
    }
    me.stack.end_call();
    to
}

/// The digit of the variable of a loop counted from 1, 0 where it has none.
#[inline(always)]
#[tactic(auto, using(crate::proofs::Counters::digit_low, crate::proofs::Counters::few_digits))]
fn digit_counted(v: Var2) -> u8
    requires named { is_legal_name (loops.scalar_of v) ≡ true }
    ensures value { result ≡ spec.digit_counted v.digit }
    ensures few { result ≤ 10 }
{
    match v.digit {
        Some(digit) => digit - 47,
        None => 0,
    }
}

/// Gives the variable of a loop a value, where there is room for it.
#[inline(always)]
#[tactic(auto, using(crate::proofs::Counters::lettered, crate::proofs::Counters::counter_set))]
fn set_counter(vars: &mut Vars, v: Var2, x: Dec) -> bool
    requires named { is_legal_name (loops.scalar_of v) ≡ true }
    ensures { spec.MadeOrNot (assigned_number (loops.loop_element v) x vars.old) vars.old vars.new result }
{
    vars.set_scalar(v.letter, digit_counted(v), x)
}

/// The value of the variable of a loop, and its step.
#[inline(always)]
#[tactic(auto, using(crate::proofs::Counters::lettered, crate::proofs::Counters::counted_is))]
fn next_number(vars: &Vars, mode: Mode, v: Var2, step: Dec) -> NumberOrCode
    requires named { is_legal_name (loops.scalar_of v) ≡ true }
    ensures { result ≡ loops.next_value mode (number_there (record { vars = vars.now; element = loops.loop_element v })) step }
{
    let x = vars.scalar(v.letter, digit_counted(v));
    sum_or_code(x, step, mode)
}

/// Where NEXT leads: on where the loop is over, and else to its body.
#[inline(always)]
#[tactic(auto, using(crate::proofs::Led::body_led))]
fn lead_round(found: &Found<'_>, over: bool, body: Place) -> Lead
    requires few { found.now.place.unit < 255 }
    ensures { spec.LeadsBy (lead_seen result) found.now (if over then outcome.Next else outcome.Jump body) }
{
    if over {
        lead_next(found)
    } else {
        lead_into(found.place.home, body)
    }
}

/// Drops the loop on top where it is over.
#[inline(always)]
fn end_loop_if(stack: &mut Stack, over: bool)
    ensures { stack.new ≡ (if over then without_top_loop stack.old else stack.old) }
{
    if over {
        stack.end_loop();
    }
}

/// Gives the variable of the loop on top its next value, and tests it.
#[inline(always)]
fn fast_round(
    me: &mut Private,
    found: &Found<'_>,
    v: Var2,
    limit: Dec,
    step: Dec,
    body: Place,
) -> Lead
    requires few { found.now.place.unit < 255 }
    requires named { is_legal_name (loops.scalar_of v) ≡ true }
    ensures fast { spec.Steers (lead_seen result) found.now me.old me.new (loops.goes_round (Some (limit, step, body)) v me.old) }
    ensures undisturbed { me.new ≡ record me.old { vars = me.new.vars; stack = me.new.stack; args = me.new.args } }
{
    let counted = next_number(&me.vars, me.mode, v, step);
    if counted.is_code() {
        return Lead::none();
    }
    let x = counted.get();
    let over = is_over(x, limit, step);
    let to = lead_round(found, over, body);
    if !to.is_done() {
        return Lead::none();
    }
    if !set_counter(&mut me.vars, v, x) {
        return Lead::none();
    }
    end_loop_if(&mut me.stack, over);
    to
}

/// NEXT of the loop on top.
#[inline(always)]
fn fast_next(me: &mut Private, found: &Found<'_>) -> Lead
    requires read { IsRead found.now }
    requires program { is_some found.now.place.line ≡ true }
    requires next { found.now.unit.now.row ≡ row.NEXT }
    ensures fast { DoneFast (lead_seen result) found.now me.old me.new (spec.planned_fast found.now me.old) }
    ensures undisturbed { me.new ≡ record me.old { vars = me.new.vars; stack = me.new.stack; args = me.new.args } }
{
    let v = counter_at(found.unit.bytes);
    let Some(frame) = me.stack.top() else {
        return Lead::none();
    };
    match *frame {
        Frame::For {
            var,
            limit,
            step,
            body,
        } => {
            if var == v {
                fast_round(me, found, v, limit, step, body)
            } else {
                Lead::none()
            }
        }
        Frame::Call { .. } => Lead::none(),
    }
}

/// What FOR writes.
#[inline(always)]
fn loop_written(me: &mut Private, found: &Found<'_>) -> Result<Loop, Code>
    requires phrase { is_phrase row.FOR found.now.unit.now.bytes.now ≡ true }
    ensures written { result ≡ loops.loop_in (spec.around_fast found.now me.old) (tree_at row.FOR found.now.unit.now.bytes.now) }
    ensures me { me.new ≡ me.old }
    ensures named { IfOk result (λ l. is_legal_name (loops.scalar_of l.var) ≡ true) }
{
    let e = surroundings_here(&me.vars, found.home, setting_of(me));
    loop_at(&e, found.unit.bytes)
}

/// Puts a frame on top, where there is room.
#[inline(always)]
fn put_with_room(stack: &mut Stack, frame: Frame)
    requires { length stack.old < most_frames }
    ensures { stack.new ≡ frame ∷ stack.old }
{
    match stack.push(frame) {
        Ok(()) => {}
        Err(_) => unreachable!(),
    }
}

/// Begins a loop, where there is room for its variable.
fn begin_with_room(me: &mut Private, l: Loop, body: Place) -> bool
    requires room { length me.old.stack < most_frames }
    requires named { is_legal_name (loops.scalar_of l.var) ≡ true }
    ensures fast { spec.BeginsOrNot l body me.old me.new result }
    ensures undisturbed { me.new ≡ record me.old { vars = me.new.vars; stack = me.new.stack; args = me.new.args } }
{
    if !set_counter(&mut me.vars, l.var, l.from) {
        return false;
    }
    drop_loop(&mut me.stack, l.var);
    put_with_room(&mut me.stack, frame_of(l, body));
    true
}

/// FOR.
#[inline(always)]
fn fast_for(me: &mut Private, found: &Found<'_>) -> Lead
    requires phrase { is_phrase row.FOR found.now.unit.now.bytes.now ≡ true }
    requires few { found.now.place.unit < 255 }
    ensures fast { spec.Steers (lead_seen result) found.now me.old me.new (carried (asks_loop (loops.loop_in (spec.around_fast found.now me.old) (tree_at row.FOR found.now.unit.now.bytes.now)) (body_place (here_found found.now) found.now.home.now.lines)) found.now.place me.old found.now.own.now.lines found.now.home.now.lines) }
    ensures undisturbed { me.new ≡ record me.old { vars = me.new.vars; stack = me.new.stack; args = me.new.args } }
{
    let on = lead_on(found);
    if !on.is_done() {
        return Lead::none();
    }
    if !me.stack.has_room() {
        return Lead::none();
    }
    match loop_written(me, found) {
        Ok(l) => {
            if begin_with_room(me, l, on.place(found.place.home)) {
                on
            } else {
                Lead::none()
            }
        }
        Err(_) => Lead::none(),
    }
}

/// Does a statement of control done fast, where it stands in a line of the program. Where it can't, as with any code, nothing has changed.
#[tactic(auto, using(crate::proofs::FastRows::goto_fast, crate::proofs::FastRows::if_fast, crate::proofs::FastRows::gosub_fast, crate::proofs::FastRows::return_fast, crate::proofs::FastRows::for_fast, crate::proofs::FastRows::else_fast, crate::proofs::FastRows::error_fast, crate::proofs::FastRows::remark_fast, crate::proofs::FastRows::image_fast, crate::proofs::FastRows::data_fast, crate::proofs::FastRows::function_fast, crate::proofs::FastRows::call_fast, crate::proofs::FastRows::mark_fast))]
#[inline(always)]
pub fn do_fast(me: &mut Private, found: &Found<'_>) -> Lead
    requires read { IsRead found.now }
    requires program { is_some found.now.place.line ≡ true }
    ensures fast { DoneFast (lead_seen result) found.now me.old me.new (spec.planned_fast found.now me.old) }
    ensures built { is_some (lead_seen result) ≡ true → is_built found.now.unit.now.row ≡ true }
    ensures undisturbed { me.new ≡ record me.old { vars = me.new.vars; stack = me.new.stack; args = me.new.args } }
    ensures part { me.new.part ≡ me.old.part }
{
    match found.unit.row {
        rows::NEXT => fast_next(me, found),
        rows::IF => fast_if(me, found),
        rows::GOTO => fast_goto(found),
        rows::GOSUB => fast_gosub(me, found),
        rows::RETURN => fast_return(me, found),
        rows::FOR => fast_for(me, found),
        rows::GOSUB_MARKED => fast_gosub_marked(me, found),
        rows::DEFFN_MARKED => fast_mark(me, found),
        rows::ELSE => fast_else(found),
        rows::REMARK => lead_next(found),
        rows::IMAGE_LINE => lead_next(found),
        rows::DATA => lead_next(found),
        rows::ERROR => lead_there(found, Goal::NextLine),
        rows::DEFFN => fast_function(found),
        _ => Lead::none(),
    }
}
