// GOSUB, RETURN and RETURN CLEAR.
ghost use Rattle.std.specs.Prelude.{◌≡◌, true};
ghost use Rattle.b2_atom.specs.declared.rows.TheConstants as row;
ghost use Rattle.b2_rows.specs.Rows.{is_phrase, tree_at};
ghost use Rattle.b2_access.specs.Places.{line_start};
ghost use Rattle.b2_text.specs.Program.{line_at};
ghost use Rattle.b2_stmt.specs.Calls as spec;
ghost use Rattle.b2_access.specs.Steering.{steered};

use crate::framing::put_frame;
use b2_access::{Outcome, Private, drop_frames, failed, to_place};
use b2_atom::words::ALL;
use b2_base::codes::{P36_NO_LINE, P41_NO_CALL};
use b2_base::lexical::rest_after;
use b2_flow::{Frame, Place};
use b2_rows::{is_at, line_at};
use b2_text::Text;

/// The line that GOSUB calls.
#[tactic(auto, using(crate::proofs::CallRows::gosub_line, crate::proofs::CallRows::gosub_is))]
pub fn line_called(unit: &[u8]) -> u16
    requires phrase { is_phrase row.GOSUB unit.now ≡ true }
    ensures { result ≡ spec.line_called (tree_at row.GOSUB unit.now) }
{
    line_at(rest_after(unit, 1))
}

/// Calls a line, which leads back to a place. P36 comes before A04.
pub fn call_line(
    me: &mut Private,
    home: &Text,
    place: Place,
    n: u16,
    back: Option<Place>,
) -> Outcome
    ensures ended { record { me = me.new; outcome = result } ≡ steered me.old (spec.called_where (line_at n home.now.lines) (line_start place n) back me.old) }
    ensures part { me.new.part ≡ me.old.part }
{
    if home.line(n).is_none() {
        return failed(P36_NO_LINE);
    }
    let line = Place {
        home: place.home,
        line: Some(n),
        unit: 0,
    };
    let frame = Frame::Call {
        back,
        entered: None,
    };
    put_frame(me, frame, Outcome::Jump(line))
}

/// RETURN.
pub fn go_back(me: &mut Private) -> Outcome
    ensures ended { record { me = me.new; outcome = result } ≡ steered me.old (spec.goes_back me.old) }
    ensures part { me.new.part ≡ me.old.part }
{
    match me.stack.pop_call() {
        Ok((back, _)) => to_place(back),
        Err(code) => Outcome::Failed(code),
    }
}

/// RETURN CLEAR. P41 where the call entered the text of another too.
fn forget_call(me: &mut Private) -> Outcome
    ensures ended { record { me = me.new; outcome = result } ≡ steered me.old (spec.forgets_call me.old) }
    ensures part { me.new.part ≡ me.old.part }
{
    if me.stack.entered_last().is_some() {
        return failed(P41_NO_CALL);
    }
    match me.stack.pop_call() {
        Ok(_) => Outcome::Next,
        Err(code) => Outcome::Failed(code),
    }
}

/// Whether RETURN CLEAR ALL may go: there is a call, and no text of another runs.
pub fn may_forget_all(me: &Private, place: Place) -> bool
    ensures { result ≡ spec.may_forget_all place me.now }
{
    me.stack.has_call() && place.home == me.part
}

/// RETURN CLEAR ALL.
fn forget_calls(me: &mut Private, place: Place) -> Outcome
    ensures ended { record { me = me.new; outcome = result } ≡ steered me.old (spec.forgets_all place me.old) }
    ensures part { me.new.part ≡ me.old.part }
{
    if !may_forget_all(me, place) {
        return failed(P41_NO_CALL);
    }
    drop_frames(me);
    Outcome::Next
}

/// Whether RETURN CLEAR has ALL.
#[tactic(auto, using(crate::proofs::CallRows::all_is))]
pub fn has_all(unit: &[u8]) -> bool
    requires phrase { is_phrase row.RETURN_CLEAR unit.now ≡ true }
    ensures { result ≡ spec.has_all (tree_at row.RETURN_CLEAR unit.now) }
{
    is_at(ALL, rest_after(rest_after(unit, 1), 1))
}

/// RETURN CLEAR with ALL or without.
pub fn forget(me: &mut Private, place: Place, all: bool) -> Outcome
    ensures ended { record { me = me.new; outcome = result } ≡ steered me.old (spec.forgets all place me.old) }
    ensures part { me.new.part ≡ me.old.part }
{
    if all {
        forget_calls(me, place)
    } else {
        forget_call(me)
    }
}
