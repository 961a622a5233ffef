// FOR and NEXT.
ghost use Rattle.std.specs.Prelude.{◌≡◌, true, IfOk, Ok};
ghost use Rattle.b2_atom.specs.declared.rows.TheConstants as row;
ghost use Rattle.b2_rows.specs.Rows.{is_phrase, tree_at};
ghost use Rattle.b2_vars.specs.Names.{is_legal_name};
ghost use Rattle.b2_flow.specs.declared.frame.Frame.TheVariants.{For};
ghost use Rattle.b2_expr.specs.Named.{number_there};
ghost use Rattle.b2_expr.specs.Scope.{surroundings};
ghost use Rattle.b2_expr.specs.Value.{in_statement};
ghost use Rattle.b2_stmt.specs.Loops as spec;
ghost use Rattle.b2_stmt.specs.Loops.{scalar_of};
ghost use Rattle.b2_access.specs.Steering.{steered};

use crate::framing::put_frame;
use b2_access::{Outcome, Private, failing};
use b2_atom::Cursor;
use b2_atom::words::STEP;
use b2_base::lexical::rest_after;
use b2_base::{Code, NoMemory};
use b2_dec::{Dec, Mode, add, cmp};
use b2_expr::{Element, Env, number};
use b2_flow::{Frame, Place, Stack, Var2};
use b2_receiver::assign_number;
use b2_rows::{Name, is_at, local_name};
use b2_vars::{Var, Vars};
use std::cmp::Ordering;

/// A loop as FOR writes it: its variable, the value that this begins with, the limit, and what NEXT adds.
#[derive(Clone, Copy)]
pub struct Loop {
    pub var: Var2,
    pub from: Dec,
    pub limit: Dec,
    pub step: Dec,
}

/// The scalar of a name, as a loop counts it.
fn counter(name: Name) -> Var2
    ensures { result ≡ spec.counter name }
{
    Var2 {
        letter: name.letter,
        digit: name.digit,
    }
}

/// The variable that a loop counts.
pub fn scalar_of(v: Var2) -> Var
    ensures { result ≡ spec.scalar_of v }
{
    Var {
        letter: v.letter,
        digit: v.digit,
        alpha: false,
        array: false,
    }
}

/// The same, as a receiver.
fn loop_element(v: Var2) -> Element
    ensures { result ≡ spec.loop_element v }
{
    Element {
        global: false,
        var: scalar_of(v),
        row: 0,
        column: 0,
    }
}

/// The step that is written, or 1.
#[tactic(auto, using(crate::proofs::LoopRows::step_sum, crate::proofs::LoopRows::step_is))]
fn step_at(e: &Env<'_>, text: &[u8]) -> Result<Dec, Code>
    requires phrase { is_phrase row.STEP text.now ≡ true }
    ensures { result ≡ spec.step_in (in_statement (surroundings e.now)) 1 (tree_at row.STEP text.now) }
{
    number(&mut Cursor::over(rest_after(text, 1)), e)
}

/// What FOR writes: its values from left to right.
#[tactic(auto, using(crate::proofs::LoopRows::for_name, crate::proofs::LoopRows::for_from, crate::proofs::LoopRows::for_limit, crate::proofs::LoopRows::for_step, crate::proofs::LoopRows::for_is, crate::proofs::LoopRows::for_without, crate::proofs::LoopRows::from_refused, crate::proofs::LoopRows::limit_refused, crate::proofs::LoopRows::legal_counter))]
pub fn loop_at(e: &Env<'_>, unit: &[u8]) -> Result<Loop, Code>
    requires phrase { is_phrase row.FOR unit.now ≡ true }
    ensures written { result ≡ spec.loop_in (in_statement (surroundings e.now)) (tree_at row.FOR unit.now) }
    ensures named { IfOk result (λ l. is_legal_name (scalar_of l.var) ≡ true) }
{
    let named = rest_after(unit, 1);
    let (name, width) = local_name(named);
    let var = counter(name);
    let mut c = Cursor::over(rest_after(rest_after(named, width), 1));
    let from = match number(&mut c, e) {
        Ok(from) => from,
        Err(code) => return Err(code),
    };
    let mut c = Cursor::over(rest_after(c.rest(), 1));
    let limit = match number(&mut c, e) {
        Ok(limit) => limit,
        Err(code) => return Err(code),
    };
    let left = c.rest();
    if !is_at(STEP, left) {
        let step = Dec::of_whole(1);
        return Ok(Loop {
            var,
            from,
            limit,
            step,
        });
    }
    match step_at(e, left) {
        Ok(step) => Ok(Loop {
            var,
            from,
            limit,
            step,
        }),
        Err(code) => Err(code),
    }
}

/// Drops an old loop of a variable, and the loops above it.
pub fn drop_loop(stack: &mut Stack, v: Var2)
    ensures { stack.new ≡ spec.without_loop v stack.old }
{
    match stack.loop_of(v) {
        Ok(_) => stack.end_loop(),
        Err(_) => {}
    }
}

/// The frame of a loop whose body stands at a place.
#[inline(always)]
pub fn frame_of(l: Loop, body: Place) -> Frame
    ensures { result ≡ For l.var l.limit l.step body }
{
    Frame::For {
        var: l.var,
        limit: l.limit,
        step: l.step,
        body,
    }
}

/// Begins a loop whose body stands at a place.
pub fn begin_loop(me: &mut Private, l: Loop, body: Place) -> Result<Outcome, NoMemory>
    requires named { is_legal_name (scalar_of l.var) ≡ true }
    ensures ended { IfOk result (λ o. record { me = me.new; outcome = o } ≡ steered me.old (spec.loop_begins l body me.old)) }
    ensures part { me.new.part ≡ me.old.part }
{
    match assign_number(&mut me.vars, loop_element(l.var), l.from) {
        Ok(()) => {}
        Err(fault) => return failing(fault),
    }
    drop_loop(&mut me.stack, l.var);
    Ok(put_frame(me, frame_of(l, body), Outcome::Next))
}

/// Whether a loop is over: its variable is past the limit in the direction of its step.
pub fn is_over(x: Dec, limit: Dec, step: Dec) -> bool
    ensures { result ≡ spec.is_over x limit step }
{
    let order = cmp(x, limit);
    if step.is_negative() {
        order == Ordering::Less
    } else {
        order == Ordering::Greater
    }
}

/// The value that a variable has, and a step.
fn next_value(vars: &Vars, mode: Mode, v: Var2, step: Dec) -> Result<Dec, Code>
    requires named { is_legal_name (scalar_of v) ≡ true }
    ensures { result ≡ spec.next_value mode (number_there (record { vars = vars.now; element = spec.loop_element v })) step }
{
    match vars.number(scalar_of(v), 0, 0) {
        Ok(x) => add(x, step, mode),
        Err(code) => Err(code),
    }
}

/// Gives the variable of the loop on top its next value, and tests it.
fn go_round(
    me: &mut Private,
    v: Var2,
    limit: Dec,
    step: Dec,
    body: Place,
) -> Result<Outcome, NoMemory>
    requires named { is_legal_name (scalar_of v) ≡ true }
    ensures ended { IfOk result (λ o. record { me = me.new; outcome = o } ≡ steered me.old (spec.goes_round (Some (limit, step, body)) v me.old)) }
    ensures part { me.new.part ≡ me.old.part }
{
    let x = match next_value(&me.vars, me.mode, v, step) {
        Ok(x) => x,
        Err(code) => return Ok(Outcome::Failed(code)),
    };
    match assign_number(&mut me.vars, loop_element(v), x) {
        Ok(()) => {}
        Err(fault) => return failing(fault),
    }
    if !is_over(x, limit, step) {
        return Ok(Outcome::Jump(body));
    }
    me.stack.end_loop();
    Ok(Outcome::Next)
}

/// NEXT of a variable.
pub fn next_round(me: &mut Private, v: Var2) -> Result<Outcome, NoMemory>
    requires named { is_legal_name (scalar_of v) ≡ true }
    ensures ended { IfOk result (λ o. record { me = me.new; outcome = o } ≡ steered me.old (spec.nexts v me.old)) }
    ensures part { me.new.part ≡ me.old.part }
{
    match me.stack.loop_of(v) {
        Ok((limit, step, body)) => go_round(me, v, limit, step, body),
        Err(code) => Ok(Outcome::Failed(code)),
    }
}

/// The variable of NEXT.
#[tactic(auto, using(crate::proofs::LoopRows::next_name, crate::proofs::LoopRows::next_is, crate::proofs::LoopRows::legal_counter))]
pub fn counter_at(unit: &[u8]) -> Var2
    requires phrase { is_phrase row.NEXT unit.now ≡ true }
    ensures variable { result ≡ spec.counter_in (tree_at row.NEXT unit.now) }
    ensures named { is_legal_name (scalar_of result) ≡ true }
{
    let (name, _) = local_name(rest_after(unit, 1));
    counter(name)
}
