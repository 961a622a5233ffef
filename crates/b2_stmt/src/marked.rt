// GOSUB', which calls the DEFFN' of a number, and DEFFN', which takes what the call passes.
ghost use Rattle.std.specs.Prelude.{◌≡◌, true, IfOk, Some, []};
ghost use Rattle.b2_atom.specs.declared.rows.TheConstants as row;
ghost use Rattle.b2_rows.specs.Rows.{is_phrase, tree_at};
ghost use Rattle.b2_receiver.specs.Receivers.{IsNamed};
ghost use Rattle.b2_expr.specs.Workspace.{SameReferences, workspace};
ghost use Rattle.b2_stmt.specs.Marked as spec;
ghost use Rattle.b2_rows.specs.CommaLists.{are_others, past_first, receivers_at};
ghost use Rattle.b2_access.specs.Found.{seen_found};
ghost use Rattle.b2_access.specs.Lending.{globals_lent};
ghost use Rattle.b2_access.specs.Steering.{steered};
ghost use Rattle.b2_stmt.specs.Marked.{takes_args};

use b2_access::{Found, Lent, Outcome, Planned, Private, failed, goes_or, setting_of};
use b2_atom::Cursor;
use b2_base::codes::{A04_TOO_DEEP, P35_ARGUMENTS, P38_NO_DEFFN};
use b2_base::lexical::{digits_width, rest_after};
use b2_base::{Code, NoMemory, Part};
use b2_dec::{Value, ValueList};
use b2_expr::{Workspace, suits, surroundings_of};
use b2_flow::{Frame, Place};
use b2_receiver::{Receiver, any_receiver, give_value, past_any_receiver};
use b2_rows::{is_alpha_at, is_at, small_at};
use b2_text::{Spot, Text};

/// The number that GOSUB' calls.
#[tactic(auto, using(crate::proofs::MarkRows::called_number, crate::proofs::MarkRows::called_is))]
pub fn number_called(unit: &[u8]) -> u8
    requires phrase { is_phrase row.GOSUB_MARKED unit.now ≡ true }
    ensures { result ≡ spec.number_called (tree_at row.GOSUB_MARKED unit.now) }
{
    small_at(rest_after(unit, 1))
}

/// The place of a spot in the text of a partition.
pub fn place_in(part: Part, spot: Spot) -> Place
    ensures { result ≡ spec.place_in part spot }
{
    Place {
        home: part,
        line: Some(spot.line),
        unit: spot.unit,
    }
}

/// Where the DEFFN' of a number stands: in the text at home, and else in the own text.
pub fn mark_place(n: u8, place: Place, part: Part, own: &Text, home: &Text) -> Option<Place>
    ensures { result ≡ spec.mark_place n place part own.now.lines home.now.lines }
{
    if let Some(spot) = home.marked(n) {
        return Some(place_in(place.home, spot));
    }
    match own.marked(n) {
        Some(spot) => Some(place_in(part, spot)),
        None => None,
    }
}

/// Calls the statement at a place, which leads back to another and passes values, and may have entered a text. A04 where there is no room
/// for it.
#[tactic(auto, using(crate::proofs::MarkRows::call_put, crate::proofs::MarkRows::no_room))]
pub fn call_into(
    me: &mut Private,
    entered: Option<Part>,
    to: Place,
    args: ValueList,
    back: Option<Place>,
) -> Outcome
    ensures ended { record { me = me.new; outcome = result } ≡ steered me.old (spec.calls_into entered to args back me.old) }
    ensures part { me.new.part ≡ me.old.part }
{
    let frame = Frame::Call { back, entered };
    match me.stack.push(frame) {
        Ok(()) => {
            me.args = Some(args);
            Outcome::Jump(to)
        }
        Err(code) => Outcome::Failed(code),
    }
}

/// The code where a DEFFN' stands in neither text and none is entered.
pub fn code_of_none(me: &Private) -> Code
    ensures { result ≡ spec.code_of_none me.now.global }
{
    match me.global {
        Some(_) => Code::known(A04_TOO_DEEP),
        None => Code::known(P38_NO_DEFFN),
    }
}

/// Calls the DEFFN' of a number, which leads back to a place and passes values. P38 comes before A04.
pub fn call_mark(
    me: &mut Private,
    own: &Text,
    home: &Text,
    place: Place,
    n: u8,
    args: ValueList,
    back: Option<Place>,
) -> Outcome
    ensures ended { record { me = me.new; outcome = result } ≡ steered me.old (spec.calls_mark (spec.mark_place n place me.old.part own.now.lines home.now.lines) args back me.old) }
    ensures part { me.new.part ≡ me.old.part }
{
    match mark_place(n, place, me.part, own, home) {
        Some(to) => call_into(me, None, to, args, back),
        None => Outcome::Failed(code_of_none(me)),
    }
}

/// Whether there are as many values as receivers at a text, each of its receiver's kind.
#[tactic(auto, using(b2_receiver::proofs::ReceiverLists::other_part, b2_receiver::proofs::ReceiverLists::other_list, b2_receiver::proofs::ReceiverLists::receiver_shorter, crate::proofs::MarkRows::kind_is))]
fn values_fit(text: &[u8], args: &[Value]) -> bool
    requires phrase { is_phrase row.RECEIVER text.now ≡ true }
    requires list { are_others (past_first text.now) ≡ true }
    ensures { result ≡ spec.values_fit (receivers_at text.now) args.now }
{
    let mut left = text;
    let mut values = args;
    loop {
        let Some((value, others)) = values.split_first() else {
            return false;
        };
        if !suits(is_alpha_at(left), value) {
            return false;
        }
        left = past_any_receiver(left);
        values = others;
        if !is_at(b',', left) {
            return values.is_empty();
        }
        left = rest_after(left, 1);
    }
}

/// Assigns a value to a receiver, where they are of one kind.
#[tactic(auto, using(b2_receiver::proofs::OneKind::one_kind))]
fn assign_to(
    work: &mut Workspace<'_>,
    to: &Receiver,
    value: &Value,
) -> Result<Option<Code>, NoMemory>
    requires named { IsNamed to.now }
    ensures worked { IfOk result (λ code. record { work = workspace work.new; code = code } ≡ spec.value_to (Ok to.now) value.now (workspace work.old)) }
    ensures same_references { SameReferences work.old work.new }
{
    if !suits(to.is_alpha(), value) {
        return Ok(None);
    }
    give_value(work, to, value)
}

/// Assigns a value to the receiver at a text.
fn take_value(
    work: &mut Workspace<'_>,
    value: &Value,
    text: &[u8],
) -> Result<Option<Code>, NoMemory>
    requires phrase { is_phrase row.RECEIVER text.now ≡ true }
    ensures worked { IfOk result (λ code. record { work = workspace work.new; code = code } ≡ spec.takes_value (tree_at row.RECEIVER text.now) value.now (workspace work.old)) }
    ensures same_references { SameReferences work.old work.new }
{
    match any_receiver(&mut Cursor::over(text), &surroundings_of(work)) {
        Ok(to) => assign_to(work, &to, value),
        Err(code) => Ok(Some(code)),
    }
}

/// Assigns values to the receivers at a text, from left to right.
#[tactic(auto, using(b2_receiver::proofs::ReceiverLists::other_part, b2_receiver::proofs::ReceiverLists::other_list, b2_receiver::proofs::ReceiverLists::receiver_shorter))]
fn take_each(
    work: &mut Workspace<'_>,
    args: &[Value],
    text: &[u8],
) -> Result<Option<Code>, NoMemory>
    requires phrase { is_phrase row.RECEIVER text.now ≡ true }
    requires list { are_others (past_first text.now) ≡ true }
    ensures worked { IfOk result (λ code. record { work = workspace work.new; code = code } ≡ spec.take_each spec.takes_value (receivers_at text.now) args.now (workspace work.old)) }
    ensures same_references { SameReferences work.old work.new }
{
    let mut left = text;
    let mut values = args;
    loop {
        let Some((value, others)) = values.split_first() else {
            return Ok(None);
        };
        let code = take_value(work, value, left)?;
        if code.is_some() {
            return Ok(code);
        }
        left = past_any_receiver(left);
        if !is_at(b',', left) {
            return Ok(None);
        }
        left = rest_after(left, 1);
        values = others;
    }
}

/// Assigns values to the receivers at a text. P35 comes before any of them takes its value.
fn take_arguments_at(
    work: &mut Workspace<'_>,
    args: &[Value],
    text: &[u8],
) -> Result<Option<Code>, NoMemory>
    requires phrase { is_phrase row.RECEIVER text.now ≡ true }
    requires list { are_others (past_first text.now) ≡ true }
    ensures worked { IfOk result (λ code. record { work = workspace work.new; code = code } ≡ spec.takes_values (receivers_at text.now) args.now (workspace work.old)) }
    ensures same_references { SameReferences work.old work.new }
{
    if values_fit(text, args) {
        take_each(work, args, text)
    } else {
        Ok(Some(Code::known(P35_ARGUMENTS)))
    }
}

/// Where there are no receivers: P35 where values are passed.
#[tactic(auto, using(crate::proofs::MarkRows::no_receivers, crate::proofs::MarkRows::no_values))]
fn take_none(work: &Workspace<'_>, args: &[Value]) -> Option<Code>
    ensures { record { work = workspace work.now; code = result } ≡ spec.takes_values [] args.now (workspace work.now) }
{
    if args.is_empty() {
        None
    } else {
        Some(Code::known(P35_ARGUMENTS))
    }
}

/// Assigns values to the receivers of DEFFN'.
#[tactic(auto, using(crate::proofs::MarkRows::parameters_first, crate::proofs::MarkRows::parameters_list, crate::proofs::MarkRows::parameters_are, crate::proofs::MarkRows::no_parameters))]
fn take_arguments(
    work: &mut Workspace<'_>,
    args: &[Value],
    unit: &[u8],
) -> Result<Option<Code>, NoMemory>
    requires phrase { is_phrase row.DEFFN_MARKED unit.now ≡ true }
    ensures worked { IfOk result (λ code. record { work = workspace work.new; code = code } ≡ spec.takes_values (spec.parameters_of (tree_at row.DEFFN_MARKED unit.now)) args.now (workspace work.old)) }
    ensures same_references { SameReferences work.old work.new }
{
    let number = rest_after(unit, 1);
    let text = rest_after(number, digits_width(number));
    if is_at(b'(', text) {
        take_arguments_at(work, args, rest_after(text, 1))
    } else {
        Ok(take_none(work, args))
    }
}

/// DEFFN': it takes what a call passes; where no call waits for it, it does nothing.
pub fn take_args(
    me: &mut Private,
    lent: &mut Lent<'_>,
    found: &Found<'_>,
) -> Result<Outcome, NoMemory>
    requires phrase { is_phrase row.DEFFN_MARKED found.now.unit.now.bytes.now ≡ true }
    ensures ended { IfOk result (λ o. record { me = me.new; globals = globals_lent lent.new; planned = Planned.Done o } ≡ spec.ends_with_args (takes_args (tree_at row.DEFFN_MARKED found.now.unit.now.bytes.now) me.old (seen_found found.now (globals_lent lent.old))) me.old (seen_found found.now (globals_lent lent.old))) }
    ensures same_texts { (lent.new.own ≡ lent.old.own) × (lent.new.home ≡ lent.old.home) }
    ensures same_reference { lent.new.globals.ghost_name ≡ lent.old.globals.ghost_name }
    ensures part { me.new.part ≡ me.old.part }
{
    let setting = setting_of(me);
    let Some(args) = me.args.take() else {
        return Ok(Outcome::Next);
    };
    let mut work = Workspace {
        own: &mut me.vars,
        globals: lent.globals,
        found: lent.found,
        reached: lent.reached,
        setting,
        home: found.home,
    };
    let code = take_arguments(&mut work, args.values(), found.unit.bytes)?;
    lent.reached = work.reached;
    Ok(goes_or(Outcome::Next, code))
}
